//! How an event stands in a record, by the walk over it.
ghost use Rattle.std.specs.Prelude.{◌≡◌, ◌<◌, ℕ, List, length, Some, IsTrue, IsFalse};
ghost use Rattle.ref_tiles.specs.declared.rulebook.Rules.{Rules};
ghost use Rattle.gcg_read.specs.declared.events.Event.{Event};
ghost use Rattle.game_walk.specs.Walks.{IsWalkOf};
ghost use Rattle.explain_answers.specs.Judging.{AreRightTo, IsJudged};

use game_turns::{Machine, RuleFault};
use game_walk::{Refusal, Row, Walk};

/// How an event stands in its record.
#[derive(Clone, Copy)]
pub(crate) enum Judged<'a> {
    /// The rules allow it and all events before it. This is the game before it.
    Allowed(&'a Machine),
    /// It is the first event that the rules refuse: the game before it, and why they refuse it.
    Refused(&'a Machine, RuleFault),
    /// The rules refuse an earlier event, which is on this line.
    After(u32),
}

/// Whether the numbers of an event are right as they are written.
fn is_right(row: &Row) -> bool
    ensures right { IsTrue result → row.now.written ≡ row.now.right }
    ensures wrong { IsFalse result → row.now.written ≡ row.now.right → ⊥ }
{
    row.written == row.right
}

/// How many of the first events have right numbers as they are written.
#[tactic(auto, using(crate::proofs::FirstRefused::right_more))]
fn count_right(rows: &[Row]) -> usize
    ensures { AreRightTo rows.now result }
{
    for place in 0..rows.len() {
        if !is_right(&rows[place]) {
            return place;
        }
    }
    rows.len()
}

/// How the event at a place stands in a record of which an event is refused.
fn judged_by<'a>(walk: &'a Walk, refusal: &Refusal, place: usize) -> Option<Judged<'a>>
    requires { walk.now.refused ≡ Some refusal.now }
    ensures { (rules : Rules) (list : List (List ℕ)) (events : List Event) → IsWalkOf rules list events walk.now → place < length events
        → IsJudged rules list events place result }
{
    let right = count_right(walk.rows.as_slice());
    if right < place {
        return Some(Judged::After(refusal.line));
    }
    let game = walk.before(place)?;
    if place < right {
        return Some(Judged::Allowed(game));
    }
    Some(Judged::Refused(game, refusal.why))
}

/// How the event at a place stands.
pub(crate) fn judged_at(walk: &Walk, place: usize) -> Option<Judged<'_>>
    ensures { (rules : Rules) (list : List (List ℕ)) (events : List Event) → IsWalkOf rules list events walk.now → place < length events
        → IsJudged rules list events place result }
{
    match &walk.refused {
        None => Some(Judged::Allowed(walk.before(place)?)),
        Some(refusal) => judged_by(walk, refusal, place),
    }
}
