//! The merged record, or why there is none.
ghost use Rattle.std.specs.Prelude.{◌≡◌, IfOk};
ghost use Rattle.std.specs.Option.{option_copied};
ghost use Rattle.compare_repaired.specs.Repaired.{best_repair};
ghost use Rattle.compare_answers.specs.Found.{why_not_best, why_not_repaired, why_not, right_events, IsMergedOf, IsMerged};

use crate::copying::record_of;
use compare_choices::{Comparison, Find, Sheets};
use compare_repaired::{BestRepair, RepairedChoices};
use gcg_read::{Event, Players, Record};
use repair_rewrites::can_be_written;
use std::alloc::{AllocError, Global};

/// Why there is no merged record.
#[derive(Clone, Copy)]
pub enum WhyNotMerged {
    /// Another choice of the lines makes a game that costs as little.
    OtherChoice,
    /// It is not known whether another choice makes a game.
    ChoiceRemainsOpen,
    /// No choice of the lines is known to make a game, nor one with one more change.
    NoGame,
    /// Another change makes a game that costs as little.
    OtherChange,
    /// It is not known whether another change makes a game.
    ChangeRemainsOpen,
    /// A player of its events has no nickname.
    NoNickname,
}

/// Why the best of all choices is not ahead of the others, if it is not.
fn why_not_best(find: &Find) -> Option<WhyNotMerged>
    ensures { result ≡ why_not_best find.now.rivals.items find.now.remaining.items }
{
    if !find.rivals.is_empty() {
        Some(WhyNotMerged::OtherChoice)
    } else if !find.remaining.is_empty() {
        Some(WhyNotMerged::ChoiceRemainsOpen)
    } else {
        None
    }
}

/// Why the best repair is not ahead of the others, if it is not.
fn why_not_repaired(best: &Option<BestRepair>) -> Option<WhyNotMerged>
    ensures { result ≡ why_not_repaired best.now }
{
    match best {
        Some(best) => {
            if !best.ahead {
                Some(WhyNotMerged::OtherChange)
            } else if !best.settled {
                Some(WhyNotMerged::ChangeRemainsOpen)
            } else {
                None
            }
        }
        None => Some(WhyNotMerged::NoGame),
    }
}

/// Why no choice, and no repair of one, is ahead of the others, if that is so.
fn why_not(find: &Find, repaired: &RepairedChoices) -> Option<WhyNotMerged>
    ensures { result ≡ why_not find.now repaired.now }
{
    match &find.best {
        Some(_) => why_not_best(find),
        None => why_not_repaired(&repaired.best),
    }
}

/// The right events of the best choice, or of the best repair if no choice is known to make a game.
fn right_events<'a>(
    comparison: &'a Comparison,
    repaired: &'a RepairedChoices,
) -> Option<&'a [Event]>
    ensures { option_copied result ≡ right_events comparison.now.find.best (best_repair repaired.now) }
{
    match &comparison.find.best {
        Some(best) => Some(best.right.as_slice()),
        None => match repaired.best_repair() {
            Some(repair) => Some(repair.right.as_slice()),
            None => None,
        },
    }
}

/// The record of these players and events, if it can be written.
fn merged_of(
    alloc: Global,
    players: &Players,
    events: &[Event],
) -> Result<Result<Record, WhyNotMerged>, AllocError>
    ensures { IfOk result (IsMergedOf players.now events.now) }
{
    if !can_be_written(players, events) {
        return Ok(Err(WhyNotMerged::NoNickname));
    }
    let game = record_of(alloc, players, events)?;
    Ok(Ok(game))
}

/// The merged record, or why there is none.
pub(crate) fn merged_record(
    alloc: Global,
    sheets: &Sheets,
    comparison: &Comparison,
    repaired: &RepairedChoices,
) -> Result<Result<Record, WhyNotMerged>, AllocError>
    ensures { IfOk result (IsMerged sheets.now.first.players (why_not comparison.now.find repaired.now)
        (right_events comparison.now.find.best (best_repair repaired.now))) }
{
    if let Some(why) = why_not(&comparison.find, repaired) {
        return Ok(Err(why));
    }
    match right_events(comparison, repaired) {
        Some(events) => merged_of(alloc, &sheets.first.players, events),
        None => Ok(Err(WhyNotMerged::NoGame)),
    }
}
