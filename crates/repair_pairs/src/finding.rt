//! The pairs of changes that repair a record.
ghost use Rattle.std.specs.Prelude.{◌≡◌, IfOk, OnOk};
ghost use Rattle.game_walk.specs.Walks.{IsWalkOf};
ghost use Rattle.repair_pairs.specs.Pairs.{ArePairs};
ghost use Rattle.repair_pairs.specs.Finding.{AddsPairs, AddsPair, ArePairsSoFar, AreSorted};

use crate::found::{Head, Pair, Pairs};
use crate::heads::{HeadAt, heads_of};
use crate::listed::listed_at;
use crate::made::made_by;
use crate::news::{is_reported, least_cost};
use crate::ordering::first_pairs;
use game_walk::{Walk, walk_as_written};
use gcg_read::{Event, Events};
use lex_list::WordList;
use ref_tiles::Rules;
use repair_changes::{NUMBER, WORD, WORDS_OF_SLIPS, remaining_cost, weight_of};
use repair_single::{Repair, repairs};
use std::alloc::{AllocError, Global};

/// How many first changes the search goes on with.
const MOST_HEADS: usize = 3;

/// Fewer numbers and words than these have to stay wrong with both changes, as each costs at least as much as a word; `None` if no single repair is known.
fn below_of(singles: &[Repair], weight: usize) -> Option<usize> {
    let least = least_cost(singles)?;
    let remaining = least.saturating_sub(weight) / WORD as usize;
    Some(remaining.saturating_add(1))
}

/// Whether a repair is likely: it costs no more than a wrong number, or it leaves no number wrong and more unlisted words than come from slips.
fn is_likely(repair: &Repair) -> bool {
    if repair.remains.cost(&repair.listed.change.slip) <= NUMBER {
        return true;
    }
    repair.remains.wrong.is_empty() && repair.remains.unlisted.len() > WORDS_OF_SLIPS
}

/// Whether pairs are looked for: only if the rules refuse an event whatever its numbers are, and the first single repair is not likely.
fn is_open(walk: &Walk, singles: &[Repair]) -> bool {
    if walk.stopped.is_none() {
        return false;
    }
    match singles.first() {
        Some(first) => !is_likely(first),
        None => true,
    }
}

/// Adds a pair of the head with a number, if the pair is listed in addition to the single repairs.
fn push_pair(
    reported: &mut Vec<Pair>,
    singles: &[Repair],
    made: &[Event],
    head: usize,
    weight: usize,
    then: Repair,
) -> Result<(), AllocError>
    ensures { OnOk result (AddsPair singles.now made.now head weight then reported.old.items reported.new.items) }
{
    let slips = weight as u128 + weight_of(&then.listed.change.slip) as u128;
    let cost = remaining_cost(then.remains.wrong.len(), then.remains.unlisted.len()) + slips;
    if !is_reported(singles, made, &then, cost) {
        return Ok(());
    }
    reported.push(Pair { head, then, cost })?;
    Ok(())
}

/// Adds the pairs of the head with a number that are listed in addition to the single repairs.
fn push_pairs(
    reported: &mut Vec<Pair>,
    singles: &[Repair],
    made: &[Event],
    head: usize,
    weight: usize,
    found: Vec<Repair>,
) -> Result<(), AllocError>
    ensures { OnOk result (AddsPairs singles.now made.now head weight found.items reported.old.items reported.new.items) }
{
    for then in found {
        push_pair(reported, singles, made, head, weight, then)?;
    }
    Ok(())
}

/// Adds a head, and its pairs with the first repairs of the record that it makes.
fn push_head(
    alloc: Global,
    pairs: &mut Pairs,
    rules: &Rules,
    list: &WordList,
    walk: &Walk,
    events: &[Event],
    singles: &[Repair],
    at: HeadAt,
    most: usize,
    limit: u64,
) -> Result<(), AllocError>
    requires walk { IsWalkOf rules.now list.now events.now walk.now }
    ensures { OnOk result (ArePairsSoFar rules.now list.now events.now singles.now pairs.old → ArePairsSoFar rules.now list.now events.now singles.now pairs.new) }
{
    let Some(first) = listed_at(alloc, rules, list, walk, events, at.place, at.index)? else {
        return Ok(());
    };
    let Some(mut made) = made_by(alloc, rules, list, events, &first.change)? else {
        return Ok(());
    };
    let weight = weight_of(&first.change.slip);
    let below = below_of(singles, weight);
    let found = repairs(alloc, rules, list, &mut made, below, most, Some(limit))?;
    let number = pairs.heads.len();
    push_pairs(
        &mut pairs.reported,
        singles,
        made.as_slice(),
        number,
        weight,
        found.reported,
    )?;
    pairs.heads.push(Head { first, made })?;
    Ok(())
}

/// The pairs of the cheapest heads.
fn pairs_of(
    alloc: Global,
    rules: &Rules,
    list: &WordList,
    walk: &Walk,
    events: &[Event],
    singles: &[Repair],
    most: usize,
    limit: u64,
) -> Result<Pairs, AllocError>
    requires { IsWalkOf rules.now list.now events.now walk.now }
    ensures { IfOk result (ArePairsSoFar rules.now list.now events.now singles.now) }
{
    let mut pairs = Pairs {
        heads: Vec::new(alloc),
        reported: Vec::new(alloc),
    };
    if !is_open(walk, singles) {
        return Ok(pairs);
    }
    let heads = heads_of(alloc, rules, list, walk, events, limit)?;
    for at in heads.as_slice() {
        if pairs.heads.len() == MOST_HEADS {
            return Ok(pairs);
        }
        push_head(
            alloc, &mut pairs, rules, list, walk, events, singles, *at, most, limit,
        )?;
    }
    Ok(pairs)
}

/// The first `most` of the pairs of some heads, in the order of their costs.
fn first_of(alloc: Global, pairs: Pairs, most: usize) -> Result<Pairs, AllocError>
    ensures { IfOk result (λ first. AreSorted pairs most first) }
{
    let mut all = pairs.reported;
    all.sort_by_key(|pair| pair.cost)?;
    let reported = first_pairs(alloc, all, most)?;
    Ok(Pairs {
        heads: pairs.heads,
        reported,
    })
}

/// At most `most` pairs of changes after which a record is a legal game once its numbers are corrected, those that cost least first. The first change is one
/// of the record's single changes, and the second a repair of the record that the first makes. Each pair costs less than each of the given single repairs,
/// and makes a record that none of them makes. Afterwards the events are as they were written.
///
/// Pairs are looked for only if the rules refuse an event whatever its numbers are and no single repair is likely, and only among some first changes: there
/// may be others. Each search that this takes ends once it took `limit` steps, about as many as the events that it went over.
///
/// It fails only if memory runs out.
pub fn pairs(
    alloc: Global,
    rules: &Rules,
    list: &WordList,
    events: &mut Events,
    singles: &[Repair],
    most: usize,
    limit: u64,
) -> Result<Pairs, AllocError>
    ensures reported { IfOk result (ArePairs rules.now list.now events.old singles.now most) }
    ensures same { OnOk result (events.new ≡ events.old) }
{
    let walk = walk_as_written(alloc, rules, list, events)?;
    let found = pairs_of(
        alloc,
        rules,
        list,
        &walk,
        events.as_slice(),
        singles,
        most,
        limit,
    )?;
    first_of(alloc, found, most)
}
