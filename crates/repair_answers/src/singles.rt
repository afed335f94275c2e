//! The first repairs of a sheet by one change: of the list and, if none of these is a likely one, also of plays that a search finds.
ghost use Rattle.std.specs.Prelude.{◌≡◌, None, IfOk};
ghost use Rattle.game_walk.specs.Walks.{IsWalkOf};
ghost use Rattle.lex_check.specs.Pairs.{list_in};
ghost use Rattle.repair_plays.specs.PlayChanges.{ArePlayChanges};
ghost use Rattle.repair_single.specs.Repairs.{AreFirstBy};
ghost use Rattle.repair_single.specs.Weighers.{wrong_by};
ghost use Rattle.repair_answers.specs.Trades.{AreReported};

use crate::choices::cost_of;
use crate::numbers_alone::NumbersAlone;
use crate::trades::keep_reported;
use game_walk::Walk;
use gcg_read::Event;
use lex_check::Checked;
use ref_tiles::Rules;
use repair_changes::{Change, NUMBER};
use repair_plays::plays_for;
use repair_single::{Found, Weigher, repairs_by};
use std::alloc::{AllocError, Global};

/// The first repairs of a sheet, and the plays that were tried in addition to the changes of the list.
#[derive(Drop)]
pub(crate) struct Singles {
    /// The changes of plays; there are none if a repair by the list is a likely one.
    pub plays: Vec<Change>,
    /// The first repairs, and the changes that are left open.
    pub found: Found,
}

/// Whether the first repair costs no more than a wrong number.
fn has_likely(found: &Found) -> bool {
    match found.reported.as_slice() {
        [first, ..] => cost_of(first) <= NUMBER,
        [] => false,
    }
}

/// Whether only numbers are wrong, and at most one number or word of the sheet is: that costs no more than a change of a play.
fn is_nearly_right(below: Option<usize>) -> bool {
    match below {
        Some(below) => below <= 1,
        None => false,
    }
}

/// The first `most` repairs of a sheet by the changes of its list and by some plays.
fn with_plays(
    alloc: Global,
    rules: &Rules,
    pair: &Checked<'_>,
    weigher: &Weigher,
    walk: &Walk,
    events: &[Event],
    plays: Vec<Change>,
    below: Option<usize>,
    most: usize,
    limit: Option<u64>,
) -> Result<Singles, AllocError>
    requires { IsWalkOf rules.now (list_in pair.now) events.now walk.now }
    ensures plays { IfOk result (λ s. s.plays ≡ plays) }
    ensures reported { IfOk result (λ s. AreFirstBy (wrong_by weigher.now) rules.now (list_in pair.now) events.now plays.items below s.found.from most s.found.reported.items s.found.remaining.items) }
    ensures all { IfOk result (λ s. limit ≡ None → s.found.from ≡ 0) }
{
    let found = repairs_by(
        alloc,
        rules,
        pair.list(),
        weigher,
        walk,
        events,
        plays.as_slice(),
        below,
        most,
        limit,
    )?;
    Ok(Singles { plays, found })
}

/// The first `most` repairs of a sheet by the changes of its list; if the first of them costs more than a wrong number, or there is none,
/// those by these changes and by the plays that a search finds. No plays are looked for if only a single number or word is wrong. A limit ends the search at
/// a place once it took so many steps; the last places are tried first.
///
/// It fails only if memory runs out.
pub(crate) fn found_repairs(
    alloc: Global,
    rules: &Rules,
    pair: &Checked<'_>,
    weigher: &Weigher,
    walk: &Walk,
    events: &[Event],
    below: Option<usize>,
    most: usize,
    limit: Option<u64>,
) -> Result<Singles, AllocError>
    requires { IsWalkOf rules.now (list_in pair.now) events.now walk.now }
    ensures reported { IfOk result (λ s. AreFirstBy (wrong_by weigher.now) rules.now (list_in pair.now) events.now s.plays.items below s.found.from most s.found.reported.items s.found.remaining.items) }
    ensures plays { IfOk result (λ s. ArePlayChanges events.now walk.now s.plays.items) }
    ensures all { IfOk result (λ s. limit ≡ None → s.found.from ≡ 0) }
{
    let none = Vec::new(alloc);
    let by_list = with_plays(
        alloc, rules, pair, weigher, walk, events, none, below, most, limit,
    )?;
    if is_nearly_right(below) || has_likely(&by_list.found) {
        return Ok(by_list);
    }
    let plays = plays_for(alloc, rules, pair, walk, events)?;
    if plays.is_empty() {
        return Ok(by_list);
    }
    with_plays(
        alloc, rules, pair, weigher, walk, events, plays, below, most, limit,
    )
}

/// The first `most` repairs of a record that are listed, as [`found_repairs`] finds them, given what is wrong if only its numbers are.
///
/// It fails only if memory runs out.
pub(crate) fn first_repairs(
    alloc: Global,
    rules: &Rules,
    pair: &Checked<'_>,
    walk: &Walk,
    events: &[Event],
    alone: &Option<NumbersAlone>,
    below: Option<usize>,
    most: usize,
    limit: Option<u64>,
) -> Result<Singles, AllocError>
    requires { IsWalkOf rules.now (list_in pair.now) events.now walk.now }
    ensures reported { IfOk result (λ s. AreReported rules.now (list_in pair.now) events.now alone.now s.plays.items below s.found.from most s.found.reported.items s.found.remaining.items) }
    ensures plays { IfOk result (λ s. ArePlayChanges events.now walk.now s.plays.items) }
    ensures all { IfOk result (λ s. limit ≡ None → s.found.from ≡ 0) }
{
    let mut singles = found_repairs(
        alloc,
        rules,
        pair,
        &Weigher::Sheet,
        walk,
        events,
        below,
        most,
        limit,
    )?;
    keep_reported(alone, &mut singles.found.reported);
    Ok(singles)
}
