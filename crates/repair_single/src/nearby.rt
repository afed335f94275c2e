//! Whether a change helps, as far as the events near it show: one of them is refused, or the game is soon as it was without the change.
ghost use Rattle.std.specs.Prelude.{◌≡◌, [], ◌≤◌, ◌<◌, ◌+◌, ℕ, List, length, IsTrue, IsFalse, IfOk, IfSome};
ghost use Rattle.game_turns.specs.Machines.{rules_of};
ghost use Rattle.game_walk.specs.Walks.{IsWalkOf};
ghost use Rattle.gcg_read.specs.declared.events.Event.{Event};
ghost use Rattle.repair_changes.specs.Applied.{applied, wrong_events};
ghost use Rattle.repair_single.specs.Nearby.{IsPartRefused, IsPartTaken, IsNear, IsTakenNear};
ghost use Rattle.repair_single.specs.RackStops.{MakeNoGame, IsStop, IsStepsAround, StopsAgain, steps_in};

use crate::first_steps::FirstSteps;
use crate::mending::mend;
use crate::rack_stops::{RackStop, have_no_deal};
use crate::standing::game_before;
use game_turns::{Machine, law_of_tallies};
use game_walk::Walk;
use gcg_read::{Event, Events};
use lex_list::WordList;
use ref_tiles::Rules;
use repair_changes::{Change, apply, copy_slip, law_of_changes, wrong_events};
use std::alloc::{AllocError, Global};

/// How many events after a change are taken before the game is compared with that of the record. A play that is taken back leaves its tiles
/// in view for one more event.
const NEAR: usize = 3;

/// Takes all of these events but the last, each with its right numbers, and adds their steps. It is false if one of them is refused whatever
/// its numbers are.
///
/// It fails only if memory runs out.
fn takes_part(
    machine: &mut Machine,
    near: &mut Events,
    list: &WordList,
    first: &mut FirstSteps,
) -> Result<bool, AllocError>
    requires { first.old.steps.items ≡ [] }
    ensures refused { IfOk result (λ b. IsFalse b → IsPartRefused (rules_of machine.old) list.now near.old machine.old) }
    ensures taken { IfOk result (λ b. IsTrue b → IsPartTaken (rules_of machine.old) list.now near.old machine.old machine.new first.new.steps.items) }
{
    law_of_tallies();
    let last = near.len().saturating_sub(1);
    for place in 0..last {
        first.note(machine, near.as_slice(), place)?;
        if mend(machine, near, place, list).is_err() {
            return Ok(false);
        }
    }
    Ok(true)
}

/// The place of the event before which the game is compared: a few events after those that a change concerns. None if the walk or the record
/// ends before.
fn end_of(walk: &Walk, events: &[Event], change: &Change) -> Option<usize>
    ensures { IfSome result (λ end. (end < length events.now) × (end ≤ length walk.now.rows.items)
        × (change.now.place + wrong_events change.now.slip ≤ end)) }
{
    let rows = walk.rows.len();
    if events.is_empty() || change.place > rows {
        return None;
    }
    let least = change.place + wrong_events(&change.slip);
    let end = (least + NEAR).min(rows).min(events.len() - 1);
    if end < least {
        return None;
    }
    Some(end)
}

/// The events of a record with a change, from a place before the change up to one after it.
fn near_events(
    alloc: Global,
    events: &[Event],
    change: &Change,
    start: usize,
    end: usize,
) -> Result<Events, AllocError>
    requires start { start ≤ change.now.place }
    requires end { change.now.place + wrong_events change.now.slip ≤ end }
    requires within { end < length events.now }
    ensures { IfOk result (λ near. IsNear (applied change.now events.now) near events.now start end) }
{
    let here = Change {
        place: change.place - start,
        slip: copy_slip(&change.slip),
    };
    apply(alloc, &here, &events[start..end + 1])
}

/// The steps that are kept with a stop, with others in place of those from one place up to another.
fn steps_around(
    alloc: Global,
    stop: &RackStop,
    start: usize,
    first: &FirstSteps,
    end: usize,
) -> Result<FirstSteps, AllocError>
    requires { end ≤ length stop.now.steps.items }
    ensures { IfOk result (λ all. IsStepsAround stop.now.steps.items start first.now.steps.items end all.steps.items) }
{
    let last = stop.steps.len().min(stop.end.saturating_add(1)).max(end);
    let mut all = FirstSteps::of(alloc, stop.steps.as_slice(), start, 0)?;
    all.add(first.steps.as_slice())?;
    all.add(&stop.steps[end..last])?;
    Ok(all)
}

/// Whether no deal yields the racks of a record up to where they stop, with these steps in place of those from one place up to another.
fn stops_again(
    alloc: Global,
    rules: &Rules,
    stop: &Option<RackStop>,
    start: usize,
    many: usize,
    end: usize,
    first: &FirstSteps,
) -> Result<bool, AllocError>
    ensures { IfOk result (λ b. IsTrue b → StopsAgain rules.now (steps_in stop.now) start many end first.now.steps.items) }
{
    let Some(stop) = stop else {
        return Ok(false);
    };
    if first.steps.len() != many {
        return Ok(false);
    }
    if start > end {
        return Ok(false);
    }
    if end > stop.steps.len() {
        return Ok(false);
    }
    let all = steps_around(alloc, stop, start, first, end)?;
    Ok(have_no_deal(rules, all.steps.as_slice(), &stop.cut))
}

/// Whether the game after a change is as it was without it, and so either a later event is refused or no deal yields the racks.
fn goes_wrong_again(
    alloc: Global,
    rules: &Rules,
    walk: &Walk,
    stop: &Option<RackStop>,
    machine: &Machine,
    start: usize,
    many: usize,
    end: usize,
    first: &FirstSteps,
) -> Result<bool, AllocError>
    ensures { IfOk result (λ b. IsTrue b → (list : List (List ℕ)) (written changed : List Event) → IsWalkOf rules.now list written walk.now
        → IsStop rules.now list written stop.now → IsTakenNear rules.now list written changed start end many machine.now first.now.steps.items
        → MakeNoGame rules.now list changed) }
{
    law_of_tallies();
    let Some(game) = game_before(walk, end) else {
        return Ok(false);
    };
    if !machine.is_like(game) {
        return Ok(false);
    }
    if walk.stopped.is_some() {
        return Ok(true);
    }
    stops_again(alloc, rules, stop, start, many, end, first)
}

/// Whether a record makes no game with a change, as far as the events near it show: one of them is refused with it whatever its numbers are, or
/// the game after them is as it was without the change, and either a later event is refused or no deal yields the racks.
///
/// It fails only if memory runs out.
pub(crate) fn fails_nearby(
    alloc: Global,
    rules: &Rules,
    list: &WordList,
    walk: &Walk,
    events: &[Event],
    stop: &Option<RackStop>,
    change: &Change,
) -> Result<bool, AllocError>
    ensures { IfOk result (λ b. IsTrue b → IsWalkOf rules.now list.now events.now walk.now → IsStop rules.now list.now events.now stop.now
        → MakeNoGame rules.now list.now (applied change.now events.now)) }
{
    law_of_changes();
    let Some(end) = end_of(walk, events, change) else {
        return Ok(false);
    };
    let start = change.place.saturating_sub(1);
    let Some(game) = game_before(walk, start) else {
        return Ok(false);
    };
    let mut machine = game.copy();
    let mut near = near_events(alloc, events, change, start, end)?;
    let many = near.len().saturating_sub(1);
    let mut first = FirstSteps::new(alloc, if stop.is_some() { many } else { 0 });
    if !takes_part(&mut machine, &mut near, list, &mut first)? {
        return Ok(true);
    }
    goes_wrong_again(alloc, rules, walk, stop, &machine, start, many, end, &first)
}
