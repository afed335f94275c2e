//! Trying one change of a record.
ghost use Rattle.std.specs.Prelude.{◌≡◌, ◌↔◌, ◌≤◌, ℕ, Some, IsTrue, IsFalse, IfOk, OnOk};
ghost use Rattle.game_turns.specs.Machines.{rules_of};
ghost use Rattle.game_walk.specs.Walks.{IsWalkOf};
ghost use Rattle.repair_single.specs.Remaining.{AreFewer};
ghost use Rattle.repair_single.specs.Trying.{NoneFrom, NoneReported, StandsBefore, IsWeight};
ghost use Rattle.repair_single.specs.FirstSteps.{AreFirstSteps};
ghost use Rattle.repair_single.specs.RackStops.{IsStop};
ghost use Rattle.repair_single.specs.Weighers.{wrong_by};

use crate::correcting::corrected;
use crate::counting::{after_event, after_rows};
use crate::first_steps::FirstSteps;
use crate::had::{Had, line_at};
use crate::mending::mend;
use crate::missing::{is_missing_at, missing_place};
use crate::nearby::fails_nearby;
use crate::rack_stops::{RackStop, are_stopped, first_steps};
use crate::remaining::what_remains;
use crate::remains::Remains;
use crate::rooms::is_full;
use crate::standing::{game_before, start_of};
use crate::steps::spend;
use crate::weighers::Weigher;
use game_turns::{Machine, law_of_tallies};
use game_walk::Walk;
use gcg_read::{Event, Events};
use lex_list::WordList;
use ref_tiles::Rules;
use repair_changes::{Change, apply, law_of_changes};
use std::alloc::{AllocError, Global};

/// How often the record is gone over to weigh a change: to correct it, and to see which numbers and words stay wrong.
const TIMES_WEIGHED: usize = 3;

/// About as often as it takes as long to look for a deal.
const TIMES_SETTLED: usize = 20;

/// About how many events are gone over near a change; where the racks of a record stop, their bounds are looked at too.
fn nearby_steps(stop: &Option<RackStop>) -> usize {
    match stop {
        Some(stop) => stop.end / 8 + 8,
        None => 8,
    }
}

/// Goes on from a place with a machine that is before it, gives each event its right numbers, and adds the steps that come next. It is
/// false if an event is refused whatever its numbers are, and if more numbers and words are wrong from there on than there is room for.
///
/// It fails only if memory runs out.
fn goes_on(
    game: &Machine,
    events: &mut Events,
    start: usize,
    list: &WordList,
    missing: Option<usize>,
    room: Option<usize>,
    first: &mut FirstSteps,
    spent: &mut u64,
) -> Result<bool, AllocError>
    requires game { StandsBefore (rules_of game.now) list.now events.old start game.now }
    requires missing { (k : ℕ) → missing ≡ Some k → start ≤ k }
    requires first { AreFirstSteps (rules_of game.now) list.now events.old first.old.steps.items }
    ensures none { IfOk result (λ b. IsFalse b → NoneFrom (rules_of game.now) list.now events.old start missing room) }
    ensures first { OnOk result (AreFirstSteps (rules_of game.now) list.now events.old first.new.steps.items) }
{
    law_of_tallies();
    if start > events.len() {
        return Ok(true);
    }
    let mut machine = game.copy();
    let mut had = Had::after(&events.as_slice()[..start]);
    let mut room = room;
    for place in start..events.len() {
        if is_full(room) {
            return Ok(false);
        }
        spend(spent, 1);
        first.note(&machine, events.as_slice(), place)?;
        let written = line_at(events, place);
        if mend(&mut machine, events, place, list).is_err() {
            return Ok(false);
        }
        let right = line_at(events, place);
        let numbers = had.note(&written, &right, is_missing_at(missing, place));
        room = after_event(room, list, &machine, numbers);
    }
    Ok(!is_full(room))
}

/// Whether a change may be a repair. It is false only if with it the record has no correction that a record can write, or none that is a
/// game, or too many numbers and words stay wrong.
///
/// It fails only if memory runs out.
fn may_be_reported(
    alloc: Global,
    rules: &Rules,
    list: &WordList,
    walk: &Walk,
    events: &[Event],
    below: Option<usize>,
    stop: &Option<RackStop>,
    change: &Change,
    spent: &mut u64,
) -> Result<bool, AllocError>
    requires walk { IsWalkOf rules.now list.now events.now walk.now }
    requires stop { IsStop rules.now list.now events.now stop.now }
    ensures { IfOk result (λ b. IsFalse b → NoneReported rules.now list.now events.now below change.now) }
{
    law_of_changes();
    let mut changed = apply(alloc, change, events)?;
    let missing = missing_place(change);
    let start = start_of(events, changed.as_slice(), change.place);
    let rows = walk.rows.as_slice();
    if start > events.len() || start > changed.len() || start > rows.len() {
        return Ok(true);
    }
    let room = after_rows(below, list, events, rows, start);
    let Some(game) = game_before(walk, start) else {
        return Ok(true);
    };
    let mut first = first_steps(alloc, stop, start)?;
    if !goes_on(
        game,
        &mut changed,
        start,
        list,
        missing,
        room,
        &mut first,
        spent,
    )? {
        return Ok(false);
    }
    Ok(!are_stopped(rules, stop, first.steps.as_slice()))
}

/// Whether `many` are few enough.
fn are_fewer(below: Option<usize>, many: u128) -> bool
    ensures { IsTrue result ↔ AreFewer below many }
{
    match below {
        Some(below) => many < below as u128,
        None => true,
    }
}

/// About how many events are gone over to look for a deal: none if so much stays wrong that none is looked for. On a draft they are counted for each change.
fn deal_steps(
    weigher: &Weigher,
    below: Option<usize>,
    remaining: &Remains,
    events: usize,
) -> usize {
    match weigher {
        Weigher::Sheet if !are_fewer(below, remaining.many()) => 0,
        _ => events.saturating_mul(TIMES_SETTLED),
    }
}

/// What a change costs, if the record has a correction with it that a record can write, and few enough numbers and words stay wrong. None if
/// it has no such correction, or none that is a game.
///
/// It fails only if memory runs out.
#[tactic(auto, using(crate::proofs::Weighing::reported_by_none, crate::proofs::Weighing::reported_within))]
pub(crate) fn weigh(
    alloc: Global,
    rules: &Rules,
    list: &WordList,
    weigher: &Weigher,
    walk: &Walk,
    events: &[Event],
    below: Option<usize>,
    stop: &Option<RackStop>,
    change: &Change,
    spent: &mut u64,
) -> Result<Option<u128>, AllocError>
    requires walk { IsWalkOf rules.now list.now events.now walk.now }
    requires stop { IsStop rules.now list.now events.now stop.now }
    ensures { IfOk result (IsWeight (wrong_by weigher.now) rules.now list.now events.now below change.now) }
{
    spend(spent, nearby_steps(stop));
    if fails_nearby(alloc, rules, list, walk, events, stop, change)? {
        return Ok(None);
    }
    let room = weigher.room(below);
    if !may_be_reported(alloc, rules, list, walk, events, room, stop, change, spent)? {
        return Ok(None);
    }
    spend(spent, events.len().saturating_mul(TIMES_WEIGHED));
    let Some(right) = corrected(alloc, rules, list, change, events)? else {
        return Ok(None);
    };
    let remaining = what_remains(alloc, rules, list, weigher, change, events, &right)?;
    spend(spent, deal_steps(weigher, below, &remaining, events.len()));
    if !are_fewer(below, remaining.many()) {
        return Ok(None);
    }
    Ok(Some(remaining.cost(&change.slip)))
}
