//! The right numbers of some events.
ghost use Rattle.std.specs.Prelude.{◌≡◌, ◌≤◌, List, ℕ, length, not, if◌then◌else◌, IfOk};
ghost use Rattle.ref_tiles.specs.declared.rulebook.Rules.{Rules};
ghost use Rattle.gcg_read.specs.declared.events.Event.{Event};
ghost use Rattle.game_walk.specs.Rows.{HaveRows};
ghost use Rattle.game_case.specs.Archiving.{unlisted_plays};
ghost use Rattle.compare_choices.specs.Corrected.{IsCorrectionOf};

use game_corrections::law_of_points;
use game_walk::{Refusal, Row, walk_and_correct};
use gcg_read::Events;
use lex_list::WordList;
use ref_tiles::Rules;
use std::alloc::{AllocError, Global};

/// Some events with their right numbers.
#[derive(Drop)]
pub(crate) struct Corrected {
    /// The events.
    pub(crate) right: Events,
    /// How many plays stand with a word that is not in the list.
    pub(crate) unlisted: usize,
}

/// Where the correction of some events stops: an event is refused whatever its numbers are.
#[derive(Clone, Copy)]
pub struct Stopped {
    /// The place of the event, counted from 0.
    pub place: usize,
    /// Its line, and why it is refused.
    pub refusal: Refusal,
}

/// The result of correcting the numbers of some events.
#[derive(Drop)]
pub(crate) enum Correction {
    /// The correction stops.
    Stops(Stopped),
    /// The rules allow each event with the right numbers.
    Right(Corrected),
}

/// 1 for a play that stands with a word that is not in the list, and otherwise 0.
fn unlisted_here(row: &Row) -> usize
    ensures number { result ≡ (if not row.now.listed then 1 else 0) }
    ensures few { result ≤ 1 }
{
    if row.listed { 0 } else { 1 }
}

/// How many plays stand with a word that is not in the list, by the rows of the events.
fn unlisted_plays(rows: &[Row]) -> usize
    ensures { (rules : Rules) (list : List (List ℕ)) (events : List Event) → HaveRows rules list events rows.now → result ≡ unlisted_plays rules list events }
{
    let mut plays = 0;
    for place in 0..rows.len() {
        plays += unlisted_here(&rows[place]);
    }
    plays
}

/// Corrects the numbers of some events.
///
/// It fails only if memory runs out.
pub(crate) fn correct(
    alloc: Global,
    rules: &Rules,
    list: &WordList,
    events: Events,
) -> Result<Correction, AllocError>
    ensures { IfOk result (IsCorrectionOf rules.now list.now events) }
{
    let mut right = events;
    let walk = walk_and_correct(alloc, rules, list, &mut right)?;
    match &walk.stopped {
        Some(stop) => Ok(Correction::Stops(Stopped {
            place: walk.rows.len(),
            refusal: stop.refusal,
        })),
        None => {
            law_of_points(right.as_slice());
            let unlisted = unlisted_plays(walk.rows.as_slice());
            Ok(Correction::Right(Corrected { right, unlisted }))
        }
    }
}
