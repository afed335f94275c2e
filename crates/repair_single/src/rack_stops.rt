//! Where the racks of a record stop: no deal yields those of its first events.
ghost use Rattle.std.specs.Prelude.{◌≡◌, ℕ, List, take, length, IsTrue, IfSome, IfOk};
ghost use Rattle.ref_tiles.specs.declared.rulebook.Rules.{Rules};
ghost use Rattle.game_walk.specs.Walks.{IsWalkOf};
ghost use Rattle.repair_single.specs.FirstSteps.{AreFirstSteps};
ghost use Rattle.repair_single.specs.RackStops.{NoneWith, IsStop, steps_in};

use crate::first_steps::FirstSteps;
use crate::standing::game_before;
use deal_cuts::{Cut, law_of_fronts, rules_out};
use deal_search::{Settling, settle};
use deal_steps::{Step, first_bound};
use game_deal::law_of_bounds;
use game_walk::Walk;
use gcg_read::Event;
use ref_tiles::Rules;
use std::alloc::{AllocError, Global};

/// Where the racks of a record stop.
#[derive(Drop)]
pub(crate) struct RackStop {
    /// No deal yields the racks of the first `end` events.
    pub(crate) end: usize,
    /// What proves it, if these racks exceed no bound.
    pub(crate) cut: Option<Cut>,
    /// The steps of the first events of the record.
    pub(crate) steps: Vec<Step>,
}

/// Whether steps exceed a bound, or a cut proves that no racks fit them.
pub(crate) fn have_no_deal(rules: &Rules, steps: &[Step], cut: &Option<Cut>) -> bool
    ensures { IsTrue result → NoneWith rules.now steps.now }
{
    law_of_bounds();
    law_of_fronts();
    if first_bound(rules, steps).is_some() {
        return true;
    }
    match cut {
        Some(cut) => rules_out(rules, steps, cut),
        None => false,
    }
}

/// The steps of the events that have a row.
fn walked_steps(alloc: Global, walk: &Walk, events: &[Event]) -> Result<Vec<Step>, AllocError>
    ensures { IfOk result (λ steps. (rules : Rules) (list : List (List ℕ)) → IsWalkOf rules list events.now walk.now
        → AreFirstSteps rules list events.now steps.items) }
{
    let many = walk.rows.len();
    let mut first = FirstSteps::new(alloc, many);
    for place in 0..many {
        let Some(game) = game_before(walk, place) else {
            unreachable!()
        };
        first.note(game, events, place)?;
    }
    Ok(first.steps)
}

/// The first steps that exceed a bound, by their number.
fn bound_end(rules: &Rules, steps: &[Step]) -> Option<usize> {
    for place in 0..steps.len() {
        if first_bound(rules, &steps[..place + 1]).is_some() {
            return Some(place + 1);
        }
    }
    None
}

/// Where the racks of these steps stop, as far as is known. The contract says only that it keeps the steps: `rack_stop` checks the rest.
fn likely_stop(
    alloc: Global,
    rules: &Rules,
    steps: Vec<Step>,
) -> Result<Option<RackStop>, AllocError>
    ensures { IfOk result (λ found. IfSome found (λ stop. stop.steps.items ≡ steps.items)) }
{
    if let Some(end) = bound_end(rules, steps.as_slice()) {
        let cut = None;
        return Ok(Some(RackStop { end, cut, steps }));
    }
    match settle(alloc, rules, steps.as_slice())? {
        Settling::NoDeal { cut, .. } => Ok(Some(RackStop {
            end: cut.places.len(),
            cut: Some(cut),
            steps,
        })),
        Settling::Dealt(_) | Settling::Unknown => Ok(None),
    }
}

/// Where the racks of a record stop, up to where its walk ends.
///
/// It fails only if memory runs out.
pub(crate) fn rack_stop(
    alloc: Global,
    rules: &Rules,
    walk: &Walk,
    events: &[Event],
) -> Result<Option<RackStop>, AllocError>
    ensures { IfOk result (λ found. (list : List (List ℕ)) → IsWalkOf rules.now list events.now walk.now → IsStop rules.now list events.now found) }
{
    let steps = walked_steps(alloc, walk, events)?;
    let Some(stop) = likely_stop(alloc, rules, steps)? else {
        return Ok(None);
    };
    if stop.end > stop.steps.len() {
        return Ok(None);
    }
    if !have_no_deal(rules, &stop.steps[..stop.end], &stop.cut) {
        return Ok(None);
    }
    Ok(Some(stop))
}

/// The first `many` steps of a record that are kept with its stop, to go on from there with a change. At most one step after its stop is
/// needed: that of a line that may be missing before it.
pub(crate) fn first_steps(
    alloc: Global,
    stop: &Option<RackStop>,
    many: usize,
) -> Result<FirstSteps, AllocError>
    ensures { IfOk result (λ first. first.steps.items ≡ take many (steps_in stop.now)) }
{
    match stop {
        Some(stop) => {
            let most = stop.end.saturating_add(1);
            FirstSteps::of(alloc, stop.steps.as_slice(), many, most)
        }
        None => Ok(FirstSteps::new(alloc, 0)),
    }
}

/// Whether no events that begin with these steps make a game, as far as the bounds and the proof of the record's stop show.
pub(crate) fn are_stopped(rules: &Rules, stop: &Option<RackStop>, steps: &[Step]) -> bool
    ensures { IsTrue result → NoneWith rules.now steps.now }
{
    match stop {
        Some(stop) => have_no_deal(rules, steps, &stop.cut),
        None => false,
    }
}
