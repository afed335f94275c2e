//! How many changes a record has, and how many of them are tried.
ghost use Rattle.std.specs.Prelude.{◌≡◌, ◌+◌, ◌<◌, ◌≤◌, ◌^◌, length, IfOk, ◌-◌, ◌*◌, None};
ghost use Rattle.repair_slips.specs.Changes.{changes_at};
ghost use Rattle.game_walk.specs.Walks.{IsWalkOf};
ghost use Rattle.repair_answers.specs.Tried.{count_before, count_walked, count_untried, limit_for};

use game_walk::Walk;
use gcg_read::Event;
use lex_list::WordList;
use ref_tiles::Rules;
use repair_single::game_before;
use repair_slips::{law_of_slips, slips_at};
use std::alloc::{AllocError, Global};

/// How many steps a search may take at least: about as many as the events that it goes over.
const STEPS: u64 = 4_000_000;

/// How many changes there are at a place, up to the one after the last row.
fn count_at(
    alloc: Global,
    rules: &Rules,
    list: &WordList,
    walk: &Walk,
    events: &[Event],
    place: usize,
) -> Result<u128, AllocError>
    requires walk { IsWalkOf rules.now list.now events.now walk.now }
    requires place { place ≤ length walk.now.rows.items }
    ensures many { IfOk result (λ many. many ≡ length (changes_at rules.now events.now place)) }
    ensures few { IfOk result (λ many. many < 2 ^ 64) }
{
    law_of_slips();
    let Some(game) = game_before(walk, place) else {
        unreachable!()
    };
    let slips = slips_at(alloc, rules, game, events, place)?;
    Ok(slips.len() as u128)
}

/// How many changes a record has at the places before `end`.
///
/// It fails only if memory runs out.
fn count_before(
    alloc: Global,
    rules: &Rules,
    list: &WordList,
    walk: &Walk,
    events: &[Event],
    end: usize,
) -> Result<u128, AllocError>
    requires walk { IsWalkOf rules.now list.now events.now walk.now }
    requires end { end ≤ length walk.now.rows.items + 1 }
    ensures many { IfOk result (λ many. many ≡ count_before rules.now events.now end) }
    ensures few { IfOk result (λ many. many ≤ end * 2 ^ 64) }
{
    let mut many = 0;
    for place in 0..end {
        many += count_at(alloc, rules, list, walk, events, place)?;
    }
    Ok(many)
}

/// How many steps a search for repairs may take: as many as it needs, if the changes, each counted once for each event, are no more than `steps`.
fn limit_for(many: u128, events: usize, steps: u64) -> Option<u64>
    ensures { result ≡ limit_for many events steps }
{
    if many.saturating_mul(events as u128) <= steps as u128 {
        None
    } else {
        Some(steps)
    }
}

/// How many steps a search for repairs of a record may take: as many as it needs, if the changes, each counted once for each event, are no more than `steps`,
/// and so many otherwise.
///
/// It fails only if memory runs out.
#[tactic(auto, using(crate::proofs::Tries::no_limit))]
pub(crate) fn limit_within(
    alloc: Global,
    rules: &Rules,
    list: &WordList,
    walk: &Walk,
    events: &[Event],
    steps: u64,
) -> Result<Option<u64>, AllocError>
    requires { IsWalkOf rules.now list.now events.now walk.now }
    ensures { IfOk result (λ limit. count_walked rules.now events.now walk.now * length events.now ≤ steps → limit ≡ None) }
{
    let places = walk.rows.len() + 1;
    let many = count_before(alloc, rules, list, walk, events, places)?;
    Ok(limit_for(many, events.len(), steps))
}

/// How many steps the search for the repairs of a record may take.
///
/// It fails only if memory runs out.
pub(crate) fn search_limit(
    alloc: Global,
    rules: &Rules,
    list: &WordList,
    walk: &Walk,
    events: &[Event],
) -> Result<Option<u64>, AllocError>
    requires { IsWalkOf rules.now list.now events.now walk.now }
    ensures { IfOk result (λ limit. count_walked rules.now events.now walk.now * length events.now ≤ 4000000 → limit ≡ None) }
{
    limit_within(alloc, rules, list, walk, events, STEPS)
}

/// How many changes of a record there are, and how many of them are tried.
#[derive(Clone, Copy)]
pub(crate) struct Tries {
    /// All of them, with plays that were added.
    pub(crate) changes: u128,
    /// Those that are tried.
    pub(crate) tried: u128,
    /// Those that are not.
    pub(crate) untried: u128,
}

/// How many changes of a record there are, with `plays` plays that were added, and how many of them are tried if those from a place on are.
///
/// It fails only if memory runs out.
pub(crate) fn tries_from(
    alloc: Global,
    rules: &Rules,
    list: &WordList,
    walk: &Walk,
    events: &[Event],
    from: usize,
    plays: usize,
) -> Result<Tries, AllocError>
    requires { IsWalkOf rules.now list.now events.now walk.now }
    ensures changes { IfOk result (λ tries. tries.changes ≡ count_walked rules.now events.now walk.now + plays) }
    ensures tried { IfOk result (λ tries. tries.tried ≡ tries.changes - tries.untried) }
    ensures untried { IfOk result (λ tries. tries.untried ≡ count_untried rules.now events.now walk.now from) }
{
    let places = walk.rows.len() + 1;
    let many = count_before(alloc, rules, list, walk, events, places)?;
    let untried = count_before(alloc, rules, list, walk, events, from.min(places))?;
    let changes = many + plays as u128;
    Ok(Tries {
        changes,
        tried: changes.saturating_sub(untried),
        untried,
    })
}
