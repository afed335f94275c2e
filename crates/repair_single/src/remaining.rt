//! What stays wrong with a change, compared with the right events.
ghost use Rattle.std.specs.Prelude.{◌≡◌, ◌<◌, ◌++◌, length, IfOk, OnOk, Some, None};
ghost use Rattle.gcg_read.specs.Numerals.{IsPoints};
ghost use Rattle.game_corrections.specs.WrongNumbers.{wrong_score, wrong_sum, wrong_at, wrong_lines};
ghost use Rattle.game_turns.specs.Places.{AreAllowed};
ghost use Rattle.game_turns.specs.Unlisted.{letters_in};
ghost use Rattle.repair_changes.specs.Applied.{applied};
ghost use Rattle.game_corrections.specs.Corrections.{AreRenumbered};
ghost use Rattle.repair_single.specs.Remaining.{unlisted_words, wrong_with, Remain};
ghost use Rattle.repair_single.specs.Weighers.{wrong_by};
ghost use Rattle.repair_single.specs.Trying.{IsWritable};

use crate::remains::Remains;
use crate::sheets::on_sheet;
use crate::weighers::Weigher;
use game_corrections::{WrongNumber, had_before, is_right_sum, known_total, take};
use game_turns::{Machine, SpelledWord, law_of_tallies, unlisted_of};
use gcg_read::{Event, Events};
use lex_list::WordList;
use ref_tiles::Rules;
use repair_changes::Change;
use std::alloc::{AllocError, Global};

/// Adds the score of an event, if it is not the right one.
fn push_score(wrong: &mut Vec<WrongNumber>, event: &Event, right: &Event) -> Result<(), AllocError>
    ensures { OnOk result (wrong.new.items ≡ wrong.old.items ++ wrong_score event.now right.now) }
{
    if event.score.value() != right.score.value() {
        wrong.push(WrongNumber::Score {
            line: event.line,
            written: event.score.value(),
            right: right.score.value(),
        })?;
    }
    Ok(())
}

/// Adds the total of an event, if it is neither what the player had and the score nor the right one.
fn push_sum(
    wrong: &mut Vec<WrongNumber>,
    had: i32,
    event: &Event,
    right: &Event,
) -> Result<(), AllocError>
    requires { IsPoints had }
    ensures { OnOk result (wrong.new.items ≡ wrong.old.items ++ wrong_sum had event.now (Some right.now.total)) }
{
    let due = known_total(None, right);
    if is_right_sum(event.total, had, event.score, due) {
        return Ok(());
    }
    wrong.push(WrongNumber::Sum {
        line: event.line,
        written: event.total.value(),
        sum: had + event.score.value(),
        right: due,
    })?;
    Ok(())
}

/// Adds what is wrong at a place.
fn push_wrong(
    wrong: &mut Vec<WrongNumber>,
    sheet: &[Event],
    right: &[Event],
    place: usize,
) -> Result<(), AllocError>
    requires sheet { place < length sheet.now }
    requires right { place < length right.now }
    ensures { OnOk result (wrong.new.items ≡ wrong.old.items ++ wrong_at None sheet.now right.now place) }
{
    let event = &sheet[place];
    let due = &right[place];
    push_score(wrong, event, due)?;
    push_sum(wrong, had_before(sheet, event.player, place), event, due)?;
    Ok(())
}

/// The wrong scores and sums of a sheet, compared with the right events, in the order of the sheet.
fn wrong_lines(
    alloc: Global,
    sheet: &[Event],
    right: &[Event],
) -> Result<Vec<WrongNumber>, AllocError>
    requires { length right.now ≡ length sheet.now }
    ensures { IfOk result (λ wrong. wrong.items ≡ wrong_lines None sheet.now right.now) }
{
    let mut wrong = Vec::new(alloc);
    for place in 0..sheet.len() {
        push_wrong(&mut wrong, sheet, right, place)?;
    }
    Ok(wrong)
}

/// Puts words after others.
#[tactic(auto, using(crate::proofs::Weighing::letters_joined))]
fn push_words(words: &mut Vec<SpelledWord>, mut more: Vec<SpelledWord>) -> Result<(), AllocError>
    ensures { OnOk result (letters_in words.new.items ≡ letters_in words.old.items ++ letters_in more.items) }
{
    words.append(&mut more)?;
    Ok(())
}

/// The words of a record that stand and are not in the list, if the rules allow each of its events.
pub(crate) fn unlisted_words(
    alloc: Global,
    rules: &Rules,
    list: &WordList,
    right: &Events,
) -> Result<Vec<SpelledWord>, AllocError>
    requires { AreAllowed rules.now list.now right.now }
    ensures { IfOk result (λ words. letters_in words.items ≡ unlisted_words rules.now list.now right.now) }
{
    law_of_tallies();
    let mut machine = Machine::new(rules);
    let mut words = Vec::new(alloc);
    for place in 0..right.len() {
        if take(&mut machine, right, place, list).is_err() {
            unreachable!()
        }
        let more = unlisted_of(alloc, list, machine.standing_words())?;
        push_words(&mut words, more)?;
    }
    Ok(words)
}

/// The numbers of a sheet that stay wrong with a change, compared with the right events.
pub(crate) fn wrong_with(
    alloc: Global,
    change: &Change,
    events: &[Event],
    right: &Events,
) -> Result<Vec<WrongNumber>, AllocError>
    requires { AreRenumbered (applied change.now events.now) right.now }
    ensures { IfOk result (λ wrong. wrong.items ≡ wrong_with change.now events.now right.now) }
{
    let sheet = on_sheet(alloc, change, events, right.as_slice())?;
    let wrong = wrong_lines(alloc, sheet.as_slice(), right.as_slice())?;
    Ok(wrong)
}

/// What stays wrong with a change, compared with the right events.
///
/// It fails only if memory runs out.
pub(crate) fn what_remains(
    alloc: Global,
    rules: &Rules,
    list: &WordList,
    weigher: &Weigher,
    change: &Change,
    events: &[Event],
    right: &Events,
) -> Result<Remains, AllocError>
    requires { IsWritable rules.now list.now (applied change.now events.now) right.now }
    ensures { IfOk result (Remain (wrong_by weigher.now) rules.now list.now change.now events.now right.now) }
{
    let wrong = weigher.wrong(alloc, change, events, right)?;
    let unlisted = unlisted_words(alloc, rules, list, right)?;
    Ok(Remains { wrong, unlisted })
}
