//! The first repairs of a sheet, by what they cost.
ghost use Rattle.std.specs.Prelude.{◌≡◌, List, [], None, IfOk, OnOk};
ghost use Rattle.game_walk.specs.Walks.{IsWalkOf};
ghost use Rattle.repair_changes.specs.declared.slips.Change.{Change};
ghost use Rattle.repair_single.specs.Candidates.{AreCandidates};
ghost use Rattle.repair_single.specs.Repairs.{AreFirstBy, AreFirstRepairs};
ghost use Rattle.repair_single.specs.Weighers.{wrong_by};

use crate::candidate::Candidate;
use crate::candidates::all_candidates;
use crate::found::Found;
use crate::weighers::Weigher;
use game_walk::{Walk, walk_as_written};
use gcg_read::{Event, Events};
use lex_list::WordList;
use ref_tiles::Rules;
use repair_changes::Change;
use std::alloc::{AllocError, Global};

/// The first `most` repairs among candidates, in their order.
fn first_repairs(
    alloc: Global,
    rules: &Rules,
    list: &WordList,
    weigher: &Weigher,
    events: &[Event],
    below: Option<usize>,
    found: Vec<Candidate>,
    from: usize,
    most: usize,
) -> Result<Found, AllocError>
    ensures reported { IfOk result (λ r. (plays : List Change) → AreCandidates (wrong_by weigher.now) rules.now list.now events.now plays below from found.items
        → AreFirstBy (wrong_by weigher.now) rules.now list.now events.now plays below r.from most r.reported.items r.remaining.items) }
    ensures from { IfOk result (λ r. r.from ≡ from) }
{
    let mut first = Found {
        reported: Vec::new(alloc),
        remaining: Vec::new(alloc),
        from,
    };
    for candidate in found {
        if first.reported.len() == most {
            return Ok(first);
        }
        first.push_candidate(alloc, rules, list, weigher, events, candidate)?;
    }
    Ok(first)
}

/// The first `most` repairs of a sheet, given the walk over it, the likeliest first: single changes after which it is a legal game once its numbers are
/// corrected. `weigher` says which numbers count. `plays` are more changes, those of plays that a generator found: they come after those of the list at each
/// place. If `below` is given, fewer of the numbers that count, and fewer words, stay wrong with each.
///
/// Without a limit the changes at all places are tried. With one, the search ends at a place once it took so many steps, about as many as
/// the events that it went over; the last places are tried first, and the answer has the first one that was tried.
///
/// It fails only if memory runs out.
///
/// What stays wrong with each is said exactly. At a place that was tried none is left out except one of a record that is listed already, one that
/// comes after as many others as were asked for, or one whose deal is left open; the last are listed separately.
pub fn repairs_by(
    alloc: Global,
    rules: &Rules,
    list: &WordList,
    weigher: &Weigher,
    walk: &Walk,
    events: &[Event],
    plays: &[Change],
    below: Option<usize>,
    most: usize,
    limit: Option<u64>,
) -> Result<Found, AllocError>
    requires { IsWalkOf rules.now list.now events.now walk.now }
    ensures reported { IfOk result (λ r. AreFirstBy (wrong_by weigher.now) rules.now list.now events.now plays.now below r.from most r.reported.items r.remaining.items) }
    ensures all { IfOk result (λ r. limit ≡ None → r.from ≡ 0) }
{
    let all = all_candidates(
        alloc, rules, list, weigher, walk, events, plays, below, limit,
    )?;
    first_repairs(
        alloc, rules, list, weigher, events, below, all.found, all.from, most,
    )
}

/// The first `most` repairs of a record, of which all numbers count, by the changes of its list, as [`repairs_by`] finds them. Afterwards the events are as
/// they were.
///
/// It fails only if memory runs out.
pub fn repairs(
    alloc: Global,
    rules: &Rules,
    list: &WordList,
    events: &mut Events,
    below: Option<usize>,
    most: usize,
    limit: Option<u64>,
) -> Result<Found, AllocError>
    ensures reported { IfOk result (λ r. AreFirstRepairs rules.now list.now events.old [] below r.from most r.reported.items r.remaining.items) }
    ensures all { IfOk result (λ r. limit ≡ None → r.from ≡ 0) }
    ensures same { OnOk result (events.new ≡ events.old) }
{
    let walk = walk_as_written(alloc, rules, list, events)?;
    repairs_by(
        alloc,
        rules,
        list,
        &Weigher::Sheet,
        &walk,
        events.as_slice(),
        &[],
        below,
        most,
        limit,
    )
}
