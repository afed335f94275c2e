//! The lines of an audit.
ghost use Rattle.std.specs.Prelude.{◌≡◌, ◌++◌, ◌∷◌, [], OnOk, codes, slice_get};
ghost use Rattle.std.specs.Fmt.{signed_decimal};
ghost use Rattle.gcg_read.specs.Players.{player_of};
ghost use Rattle.sheet_audit.specs.Lines.{should_be, right_text, both_text, line_text, numbers_text, wrong_text, end_text, on_line_text, event_text, reported_text, reported_texts, audit_text};
ghost use Rattle.game_case.specs.Explaining.{finding_line};

use crate::kinds::push_kind;
use crate::leads::push_lead;
use crate::reported::{ReportedNumber, reported_numbers};
use game_case::{Audit, Finding, finding_line};
use game_corrections::due;
use gcg_read::{Players, Record, Seat};
use std::alloc::{AllocError, Global};
use text_decimals::push_number;

/// Appends the lines of an audit: one for each wrong number, what is said of a bonus or a penalty that would explain them, the verdict line of the
/// corrected record, and who is ahead.
///
/// It fails only if memory runs out.
#[tactic(auto, unfolding(crate::specs::Lines::audit_text))]
pub fn push_audit(
    alloc: Global,
    text: &mut Vec<u8>,
    audit: &Audit,
    amount: &[u8],
) -> Result<(), AllocError>
    ensures { OnOk result (text.new.items ≡ text.old.items ++ audit_text audit.now amount.now) }
{
    let numbers = reported_numbers(alloc, audit)?;
    push_numbers(text, &audit.entry.record, numbers.as_slice())?;
    text.extend_from_slice(amount)?;
    push_finding(alloc, text, &audit.entry.finding)?;
    let players = &audit.entry.record.players;
    push_lead(
        text,
        &audit.entry.finding,
        players,
        &audit.ahead,
        &audit.written,
    )
}

/// Appends the lines of the wrong numbers.
fn push_numbers(
    text: &mut Vec<u8>,
    record: &Record,
    numbers: &[ReportedNumber],
) -> Result<(), AllocError>
    ensures { OnOk result (text.new.items ≡ text.old.items ++ reported_texts record.now.players record.now.events numbers.now) }
{
    for reported in numbers {
        push_reported(text, record, reported)?;
    }
    Ok(())
}

/// Appends the line of a wrong number of the event at a place.
fn push_of_event(
    text: &mut Vec<u8>,
    record: &Record,
    place: usize,
    line: u32,
    what: &[u8],
    written: i32,
    right: i32,
) -> Result<(), AllocError>
    ensures { OnOk result (text.new.items ≡ text.old.items ++ on_line_text line what.now written right (event_text record.now.players (slice_get record.now.events place))) }
{
    push_on_line(text, line, what, written, right)?;
    push_event_at(text, record, place)?;
    push_end(text)
}

/// Appends the line of a wrong number.
fn push_reported(
    text: &mut Vec<u8>,
    record: &Record,
    reported: &ReportedNumber,
) -> Result<(), AllocError>
    ensures { OnOk result (text.new.items ≡ text.old.items ++ reported_text record.now.players record.now.events reported.now) }
{
    match reported {
        ReportedNumber::Score {
            place,
            line,
            written,
            right,
            ..
        } => push_of_event(text, record, *place, *line, b"score ", *written, *right),
        ReportedNumber::Sum {
            place,
            line,
            written,
            sum,
            right,
            ..
        } => {
            let right = due(*sum, *right);
            push_of_event(text, record, *place, *line, b"sum ", *written, right)
        }
        ReportedNumber::Total {
            player,
            written,
            right,
        } => push_total(text, &record.players, *player, *written, *right),
    }
}

/// Appends the line of a last total.
fn push_total(
    text: &mut Vec<u8>,
    players: &Players,
    player: Seat,
    written: i32,
    right: i32,
) -> Result<(), AllocError>
    ensures { OnOk result (text.new.items ≡ text.old.items ++ (codes "total of " ++ (player_of players.now player).nick ++ codes ": " ++ both_text written right)) }
{
    text.extend_from_slice(b"total of ")?;
    text.extend_from_slice(players.of(player).nick.as_bytes())?;
    text.extend_from_slice(b": ")?;
    push_both(text, written, right)
}

/// Appends what is wrong on a line, up to its event.
#[tactic(auto, unfolding(crate::specs::Lines::wrong_text))]
fn push_on_line(
    text: &mut Vec<u8>,
    line: u32,
    what: &[u8],
    written: i32,
    right: i32,
) -> Result<(), AllocError>
    ensures { OnOk result (text.new.items ≡ text.old.items ++ wrong_text line what.now written right) }
{
    push_line_number(text, line)?;
    text.extend_from_slice(what)?;
    push_wrong(text, written, right)
}

/// Appends a wrong number and the right one.
#[tactic(auto, unfolding(crate::specs::Lines::numbers_text))]
fn push_wrong(text: &mut Vec<u8>, written: i32, right: i32) -> Result<(), AllocError>
    ensures { OnOk result (text.new.items ≡ text.old.items ++ numbers_text written right) }
{
    push_number(text, written)?;
    push_should_be(text)?;
    push_number(text, right)?;
    text.extend_from_slice(b" (")?;
    Ok(())
}

/// Appends the event at a place, if there is one.
fn push_event_at(text: &mut Vec<u8>, record: &Record, place: usize) -> Result<(), AllocError>
    ensures { OnOk result (text.new.items ≡ text.old.items ++ event_text record.now.players (slice_get record.now.events place)) }
{
    match record.events.as_slice().get(place) {
        None => Ok(()),
        Some(event) => {
            text.extend_from_slice(record.players.of(event.player).nick.as_bytes())?;
            text.extend_from_slice(b", ")?;
            push_kind(text, &event.kind)
        }
    }
}

/// Appends what ends a line after its event.
#[tactic(auto, unfolding(crate::specs::Lines::end_text))]
fn push_end(text: &mut Vec<u8>) -> Result<(), AllocError>
    ensures { OnOk result (text.new.items ≡ text.old.items ++ end_text) }
{
    text.extend_from_slice(b")\n")
}

/// Appends a number that is written and the right one, and ends the line.
fn push_both(text: &mut Vec<u8>, written: i32, right: i32) -> Result<(), AllocError>
    ensures { OnOk result (text.new.items ≡ text.old.items ++ both_text written right) }
{
    push_number(text, written)?;
    push_right(text, right)
}

/// Appends what comes between a number that is written and the right one.
#[tactic(auto, unfolding(crate::specs::Lines::should_be))]
fn push_should_be(text: &mut Vec<u8>) -> Result<(), AllocError>
    ensures { OnOk result (text.new.items ≡ text.old.items ++ should_be) }
{
    text.extend_from_slice(b", should be ")
}

/// Appends which number is right, and ends the line.
#[tactic(auto, unfolding(crate::specs::Lines::right_text))]
fn push_right(text: &mut Vec<u8>, right: i32) -> Result<(), AllocError>
    ensures { OnOk result (text.new.items ≡ text.old.items ++ right_text right) }
{
    push_should_be(text)?;
    push_number(text, right)?;
    text.push(b'\n')?;
    Ok(())
}

/// Appends the number of a line and what comes after it.
#[tactic(auto, unfolding(crate::specs::Lines::line_text))]
fn push_line_number(text: &mut Vec<u8>, line: u32) -> Result<(), AllocError>
    ensures { OnOk result (text.new.items ≡ text.old.items ++ line_text line) }
{
    text.extend_from_slice(b"line ")?;
    push_number(text, line)?;
    text.extend_from_slice(b": ")?;
    Ok(())
}

/// Appends the verdict line of a finding.
fn push_finding(alloc: Global, text: &mut Vec<u8>, finding: &Finding) -> Result<(), AllocError>
    ensures { OnOk result (text.new.items ≡ text.old.items ++ finding_line finding.now) }
{
    let line = finding_line(alloc, finding)?;
    text.extend_from_slice(line.as_slice())
}
