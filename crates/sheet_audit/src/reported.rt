//! The wrong numbers of a sheet, each with its event.
ghost use Rattle.std.specs.Prelude.{◌≡◌, ◌++◌, IfOk, OnOk};
ghost use Rattle.std.specs.List.{flat_map};
ghost use Rattle.game_board.specs.Places.{place_of_line};
ghost use Rattle.sheet_audit.specs.Numbers.{score_on, sum_on, reported_number, reported_numbers};

use game_board::place_of_line;
use game_case::Audit;
use game_corrections::WrongNumber;
use gcg_read::{Event, Seat};
use std::alloc::{AllocError, Global};

/// A number of a sheet that is wrong, with its event and with what is right.
#[derive(Clone, Copy)]
pub enum ReportedNumber {
    /// A score is not the one that the rules give.
    Score {
        /// The place of its event in the record, counted from 0.
        place: usize,
        /// The line of its event, counted from 1.
        line: u32,
        /// The player of its event.
        player: Seat,
        /// The score that is written.
        written: i32,
        /// The score that the rules give.
        right: i32,
    },
    /// A total is neither the player's last total and the score, as they are written, nor the right one.
    Sum {
        /// The place of its event in the record, counted from 0.
        place: usize,
        /// The line of its event, counted from 1.
        line: u32,
        /// The player of its event.
        player: Seat,
        /// The total that is written.
        written: i32,
        /// The sum of the player's last total and the score, as they are written.
        sum: i32,
        /// The total by the rules; none from the line on at which the correction stops.
        right: Option<i32>,
    },
    /// The last total of a player is not the right one.
    Total {
        /// The player.
        player: Seat,
        /// The last total that is written.
        written: i32,
        /// The last total by the rules.
        right: i32,
    },
}

/// Appends a wrong score, with the event on its line.
fn push_score(
    reported: &mut Vec<ReportedNumber>,
    events: &[Event],
    line: u32,
    written: i32,
    right: i32,
) -> Result<(), AllocError>
    ensures { OnOk result (reported.new.items ≡ reported.old.items ++ score_on events.now line written right (place_of_line events.now line)) }
{
    let Some(place) = place_of_line(events, line) else {
        return Ok(());
    };
    let event = &events[place];
    reported.push(ReportedNumber::Score {
        place,
        line,
        player: event.player,
        written,
        right,
    })?;
    Ok(())
}

/// Appends a wrong sum, with the event on its line.
fn push_sum(
    reported: &mut Vec<ReportedNumber>,
    events: &[Event],
    line: u32,
    written: i32,
    sum: i32,
    due: Option<i32>,
) -> Result<(), AllocError>
    ensures { OnOk result (reported.new.items ≡ reported.old.items ++ sum_on events.now line written sum due (place_of_line events.now line)) }
{
    let Some(place) = place_of_line(events, line) else {
        return Ok(());
    };
    let event = &events[place];
    reported.push(ReportedNumber::Sum {
        place,
        line,
        player: event.player,
        written,
        sum,
        right: due,
    })?;
    Ok(())
}

/// Appends a wrong number, with its event.
fn push_wrong_number(
    reported: &mut Vec<ReportedNumber>,
    events: &[Event],
    wrong: &WrongNumber,
) -> Result<(), AllocError>
    ensures { OnOk result (reported.new.items ≡ reported.old.items ++ reported_number events.now wrong.now) }
{
    match wrong {
        WrongNumber::Score {
            line,
            written,
            right,
        } => push_score(reported, events, *line, *written, *right),
        WrongNumber::Sum {
            line,
            written,
            sum,
            right,
        } => push_sum(reported, events, *line, *written, *sum, *right),
        WrongNumber::Total {
            player,
            written,
            right,
        } => {
            reported.push(ReportedNumber::Total {
                player: *player,
                written: *written,
                right: *right,
            })?;
            Ok(())
        }
    }
}

/// Appends wrong numbers, each with its event.
fn push_numbers(
    reported: &mut Vec<ReportedNumber>,
    events: &[Event],
    numbers: &[WrongNumber],
) -> Result<(), AllocError>
    ensures { OnOk result (reported.new.items ≡ reported.old.items ++ flat_map (reported_number events.now) numbers.now) }
{
    for wrong in numbers {
        push_wrong_number(reported, events, wrong)?;
    }
    Ok(())
}

/// The wrong numbers of an audit, each with its event.
#[tactic(auto, unfolding(crate::specs::Numbers::reported_numbers))]
pub fn reported_numbers(alloc: Global, audit: &Audit) -> Result<Vec<ReportedNumber>, AllocError>
    ensures { IfOk result (λ reported. reported.items ≡ reported_numbers audit.now) }
{
    let mut reported = Vec::new(alloc);
    push_numbers(
        &mut reported,
        audit.entry.record.events.as_slice(),
        audit.wrong.as_slice(),
    )?;
    Ok(reported)
}
