//! The next best plays of a turn.
ghost use Rattle.std.specs.Prelude.{◌≡◌, ◌<◌, ◌≤◌, ℕ, List, Some, min, drop, length, IfOk};
ghost use Rattle.gcg_read.specs.declared.events.Event.{Event};
ghost use Rattle.lex_check.specs.Pairs.{list_in};
ghost use Rattle.game_turns.specs.Machines.{state_of};
ghost use Rattle.game_walk.specs.Walks.{IsWalk};
ghost use Rattle.sheet_notes.specs.Notes.{AreNextBy, AreNextPlays, AreNextAt};

use game_answers::{ScoredPlay, best_plays};
use game_report::{MOST_PLAYS, full_rack, is_judged};
use game_turns::Machine;
use game_walk::Walk;
use gcg_read::Event;
use lex_check::Checked;
use ref_board::Board;
use ref_tiles::{Counts, Rules};
use std::alloc::{AllocError, Global};

/// The same plays without the first.
#[tactic(auto, using(crate::proofs::NextPlays::none_dropped, crate::proofs::NextPlays::first_removed))]
fn without_first(plays: Vec<ScoredPlay>) -> Vec<ScoredPlay>
    ensures { result.items ≡ drop 1 plays.items }
{
    let mut plays = plays;
    if plays.is_empty() {
        return plays;
    }
    let _first = plays.remove(0);
    plays
}

/// The best plays by a rack on a board, but for the first of them.
fn next_by_rack(
    alloc: Global,
    rules: &Rules,
    pair: &Checked<'_>,
    board: &Board,
    rack: &Counts,
    number: usize,
) -> Result<Vec<ScoredPlay>, AllocError>
    requires { number ≤ 100 }
    ensures { IfOk result (λ plays. AreNextBy number rules.now (list_in pair.now) board.now (Some rack.now) plays.items) }
{
    let plays = best_plays(alloc, rules, pair, board, rack, number)?;
    Ok(without_first(plays))
}

/// The best plays of an event by the game before it, but for the first of them, if it is a turn and its line shows the whole rack.
fn next_of_turn(
    alloc: Global,
    rules: &Rules,
    pair: &Checked<'_>,
    machine: &Machine,
    event: &Event,
    number: usize,
) -> Result<Vec<ScoredPlay>, AllocError>
    requires { number ≤ 100 }
    ensures { IfOk result (λ plays. AreNextPlays number rules.now (list_in pair.now) (state_of machine.now) event.now plays.items) }
{
    if !is_judged(&event.kind, machine.out()) {
        return Ok(Vec::new(alloc));
    }
    match full_rack(machine, event) {
        Some(rack) => next_by_rack(alloc, rules, pair, machine.board(), &rack, number),
        None => Ok(Vec::new(alloc)),
    }
}

/// How many best plays are looked for.
fn most_of(number: usize) -> usize
    ensures is { result ≡ min number 100 }
    ensures few { result ≤ 100 }
{
    if number > MOST_PLAYS {
        MOST_PLAYS
    } else {
        number
    }
}

/// The best plays of the event at a place, but for the first of them, if more than one is asked for and the game before it is known.
#[tactic(auto, using(crate::proofs::NextPlays::next_alone, crate::proofs::NextPlays::next_known, crate::proofs::NextPlays::next_unknown))]
pub(crate) fn next_at(
    alloc: Global,
    rules: &Rules,
    pair: &Checked<'_>,
    walk: &Walk,
    place: usize,
    event: &Event,
    number: usize,
) -> Result<Vec<ScoredPlay>, AllocError>
    ensures { IfOk result (λ plays. (written right : List Event) → IsWalk rules.now (list_in pair.now) written right walk.now → place < length written
        → AreNextAt number rules.now (list_in pair.now) right place event.now plays.items) }
{
    if number < 2 {
        return Ok(Vec::new(alloc));
    }
    match walk.before(place) {
        Some(machine) => next_of_turn(alloc, rules, pair, machine, event, most_of(number)),
        None => Ok(Vec::new(alloc)),
    }
}
