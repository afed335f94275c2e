//! The changes of a record with which it has a correction.
ghost use Rattle.std.specs.Prelude.{◌≡◌, ℕ, ◌+◌, ◌<◌, ◌≤◌, List, Option, None, map, length, IsTrue, IfOk, OnOk};
ghost use Rattle.ref_tiles.specs.declared.rulebook.Rules.{Rules};
ghost use Rattle.repair_slips.specs.Changes.{change_at};
ghost use Rattle.game_walk.specs.Walks.{IsWalkOf};
ghost use Rattle.gcg_read.specs.declared.events.Event.{Event};
ghost use Rattle.repair_single.specs.Candidates.{AreBetween, AreCandidates, AddsCandidates, AddsListed, MayBeReported};
ghost use Rattle.repair_changes.specs.declared.slips.Change.{Change};
ghost use Rattle.repair_single.specs.Listing.{changes_with};
ghost use Rattle.repair_single.specs.Remaining.{Weighing};
ghost use Rattle.repair_single.specs.Repairs.{IsListed};
ghost use Rattle.repair_single.specs.Trying.{NoneFewer};
ghost use Rattle.repair_single.specs.RackStops.{IsStop};
ghost use Rattle.repair_single.specs.Weighers.{wrong_by};
ghost use Rattle.repair_single.specs.declared.listed.Listed.{Listed};

use crate::candidate::{Candidate, Candidates};
use crate::counting::after_rows;
use crate::listed::Listed;
use crate::rack_stops::{RackStop, rack_stop};
use crate::rooms::is_full;
use crate::standing::game_before;
use crate::steps::{is_over, spend};
use crate::trying::weigh;
use crate::weighers::Weigher;
use crate::with_plays::slips_with;
use game_walk::Walk;
use gcg_read::Event;
use lex_list::WordList;
use ref_tiles::Rules;
use repair_changes::{Change, Slip, law_of_changes};
use repair_slips::law_of_slips;
use std::alloc::{AllocError, Global};

/// Adds a change of the list, if the record has a correction with it.
fn push_listed(
    alloc: Global,
    found: &mut Vec<Candidate>,
    rules: &Rules,
    list: &WordList,
    weigher: &Weigher,
    walk: &Walk,
    events: &[Event],
    below: Option<usize>,
    stop: &Option<RackStop>,
    listed: Listed,
    spent: &mut u64,
) -> Result<(), AllocError>
    requires walk { IsWalkOf rules.now list.now events.now walk.now }
    requires stop { IsStop rules.now list.now events.now stop.now }
    ensures { OnOk result ((plays : List Change) → IsListed rules.now events.now plays listed
        → AddsListed (wrong_by weigher.now) rules.now list.now events.now plays below listed found.old.items found.new.items) }
{
    let Some(cost) = weigh(
        alloc,
        rules,
        list,
        weigher,
        walk,
        events,
        below,
        stop,
        &listed.change,
        spent,
    )?
    else {
        return Ok(());
    };
    found.push(Candidate { listed, cost })?;
    Ok(())
}

/// Adds the changes at a place with which the record has a correction, for all slips that there may be, in their order.
fn push_slips(
    alloc: Global,
    found: &mut Vec<Candidate>,
    rules: &Rules,
    list: &WordList,
    weigher: &Weigher,
    walk: &Walk,
    events: &[Event],
    below: Option<usize>,
    stop: &Option<RackStop>,
    place: usize,
    slips: Vec<Slip>,
    spent: &mut u64,
) -> Result<(), AllocError>
    requires walk { IsWalkOf rules.now list.now events.now walk.now }
    requires stop { IsStop rules.now list.now events.now stop.now }
    requires within { place ≤ length events.now }
    ensures { OnOk result ((plays : List Change) → map (change_at place) slips.items ≡ changes_with rules.now events.now plays place
        → AddsCandidates (wrong_by weigher.now) rules.now list.now events.now plays below place found.old.items found.new.items) }
{
    let mut index = 0;
    for slip in slips {
        let change = Change { place, slip };
        let listed = Listed { change, index };
        push_listed(
            alloc, found, rules, list, weigher, walk, events, below, stop, listed, spent,
        )?;
        index += 1;
    }
    Ok(())
}

/// Whether so much is wrong before a place that too many numbers and words stay wrong with each change there. The row before the place
/// does not count: with a change its event may be taken back, or no longer be.
fn is_past_room(
    list: &WordList,
    walk: &Walk,
    events: &[Event],
    below: Option<usize>,
    place: usize,
) -> bool
    requires place { place ≤ length walk.now.rows.items }
    requires within { place ≤ length events.now }
    ensures { (rules : Rules) → IsWalkOf rules list.now events.now walk.now → IsTrue result
        → (change : Change) → change.place ≡ place → NoneFewer rules list.now events.now below change }
{
    law_of_changes();
    let before = place.saturating_sub(1);
    is_full(after_rows(below, list, events, walk.rows.as_slice(), before))
}

/// Adds the changes at a place with which the record has a correction, in the order of the list, and then the plays that were added there.
fn push_candidates(
    alloc: Global,
    found: &mut Vec<Candidate>,
    rules: &Rules,
    list: &WordList,
    weigher: &Weigher,
    walk: &Walk,
    events: &[Event],
    plays: &[Change],
    below: Option<usize>,
    stop: &Option<RackStop>,
    place: usize,
    spent: &mut u64,
) -> Result<(), AllocError>
    requires walk { IsWalkOf rules.now list.now events.now walk.now }
    requires stop { IsStop rules.now list.now events.now stop.now }
    requires place { place ≤ length walk.now.rows.items }
    ensures { OnOk result (AddsCandidates (wrong_by weigher.now) rules.now list.now events.now plays.now below place found.old.items found.new.items) }
{
    spend(spent, place);
    let room = weigher.room(below);
    if is_past_room(list, walk, events, room, place) {
        return Ok(());
    }
    law_of_slips();
    let Some(game) = game_before(walk, place) else {
        unreachable!()
    };
    let slips = slips_with(alloc, rules, game, events, plays, place)?;
    push_slips(
        alloc, found, rules, list, weigher, walk, events, below, stop, place, slips, spent,
    )
}

/// The changes before place `end` with which the record has a correction that leaves few enough numbers and words wrong, in the order of
/// the list. Some of those with which it makes no game are left out. The last places are tried first; where a limit is given, those before
/// are not tried once so many steps are taken.
fn candidates_before(
    alloc: Global,
    rules: &Rules,
    list: &WordList,
    weigher: &Weigher,
    walk: &Walk,
    events: &[Event],
    plays: &[Change],
    below: Option<usize>,
    stop: &Option<RackStop>,
    end: usize,
    limit: Option<u64>,
) -> Result<Candidates, AllocError>
    requires walk { IsWalkOf rules.now list.now events.now walk.now }
    requires stop { IsStop rules.now list.now events.now stop.now }
    requires end { end ≤ length walk.now.rows.items + 1 }
    ensures found { IfOk result (λ c. AreBetween (wrong_by weigher.now) rules.now list.now events.now plays.now below c.from end c.found.items) }
    ensures all { IfOk result (λ c. limit ≡ None → c.from ≡ 0) }
{
    let mut spent = 0;
    let mut found = Vec::new(alloc);
    for following in 0..end {
        let from = end - following;
        if is_over(limit, spent) {
            return Ok(Candidates { found, from });
        }
        let mut here = Vec::new(alloc);
        push_candidates(
            alloc,
            &mut here,
            rules,
            list,
            weigher,
            walk,
            events,
            plays,
            below,
            stop,
            from - 1,
            &mut spent,
        )?;
        here.append(&mut found)?;
        found = here;
    }
    Ok(Candidates { found, from: 0 })
}

/// How many places have a change that makes a game: up to the event at which the walk stops, and up to the one after those whose racks no
/// deal yields.
#[tactic(auto, using(crate::proofs::PlaceChanges::within_walk, crate::proofs::PlaceChanges::within_both))]
fn count_places(walk: &Walk, stop: &Option<RackStop>) -> usize
    ensures most { result ≤ length walk.now.rows.items + 1 }
    ensures all { (weigh : Weighing) (rules : Rules) (list : List (List ℕ)) (events : List Event) (plays : List Change) (below : Option ℕ) (listed : Listed)
        → IsWalkOf rules list events walk.now
        → IsStop rules list events stop.now → MayBeReported weigh rules list events plays below listed → listed.change.place < result }
{
    let rows = walk.rows.len();
    match stop {
        Some(stop) => rows.min(stop.end) + 1,
        None => rows + 1,
    }
}

/// The changes of a record with which it has a correction that leaves few enough numbers and words wrong: those that cost least first,
/// and those of equal cost in the order of the list. Some of those with which it makes no game are left out. Without a limit all places are
/// tried.
///
/// It fails only if memory runs out.
pub(crate) fn all_candidates(
    alloc: Global,
    rules: &Rules,
    list: &WordList,
    weigher: &Weigher,
    walk: &Walk,
    events: &[Event],
    plays: &[Change],
    below: Option<usize>,
    limit: Option<u64>,
) -> Result<Candidates, AllocError>
    requires { IsWalkOf rules.now list.now events.now walk.now }
    ensures found { IfOk result (λ c. AreCandidates (wrong_by weigher.now) rules.now list.now events.now plays.now below c.from c.found.items) }
    ensures all { IfOk result (λ c. limit ≡ None → c.from ≡ 0) }
{
    let stop = rack_stop(alloc, rules, walk, events)?;
    let end = count_places(walk, &stop);
    let mut all = candidates_before(
        alloc, rules, list, weigher, walk, events, plays, below, &stop, end, limit,
    )?;
    all.found.sort_by_key(|candidate| candidate.cost)?;
    Ok(all)
}
