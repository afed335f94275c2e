//! The first change of a record that moves its fault on.
ghost use Rattle.std.specs.Prelude.{◌≡◌, IfOk, IfSome, OnOk};
ghost use Rattle.game_walk.specs.Walks.{IsWalkOf};
ghost use Rattle.repair_pairs.specs.Pairs.{IsStep};

use crate::found::Head;
use crate::heads::{HeadAt, heads_of};
use crate::listed::listed_at;
use crate::made::made_by;
use crate::news::concerns_sheet;
use game_walk::{Walk, walk_as_written};
use gcg_read::{Event, Events};
use lex_list::WordList;
use ref_tiles::Rules;
use std::alloc::{AllocError, Global};

/// The step of a head, if the head concerns only lines of the sheet.
fn step_at(
    alloc: Global,
    rules: &Rules,
    list: &WordList,
    walk: &Walk,
    events: &[Event],
    at: HeadAt,
) -> Result<Option<Head>, AllocError>
    requires { IsWalkOf rules.now list.now events.now walk.now }
    ensures { IfOk result (λ step. IfSome step (IsStep rules.now list.now events.now)) }
{
    let Some(first) = listed_at(alloc, rules, list, walk, events, at.place, at.index)? else {
        return Ok(None);
    };
    if !concerns_sheet(events, &first.change) {
        return Ok(None);
    }
    let Some(made) = made_by(alloc, rules, list, events, &first.change)? else {
        return Ok(None);
    };
    Ok(Some(Head { first, made }))
}

/// The first step of the heads that cost less than `below`, which come first.
fn step_of(
    alloc: Global,
    rules: &Rules,
    list: &WordList,
    walk: &Walk,
    events: &[Event],
    below: u128,
    limit: u64,
) -> Result<Option<Head>, AllocError>
    requires { IsWalkOf rules.now list.now events.now walk.now }
    ensures { IfOk result (λ step. IfSome step (IsStep rules.now list.now events.now)) }
{
    let heads = heads_of(alloc, rules, list, walk, events, limit)?;
    for at in heads.as_slice() {
        if at.cost >= below {
            return Ok(None);
        }
        let step = step_at(alloc, rules, list, walk, events, *at)?;
        if step.is_some() {
            return Ok(step);
        }
    }
    Ok(None)
}

/// The cheapest of the single changes of a record with which the rules allow the first refused event too, so that the fault moves on, with the record that it
/// makes: if there is one that concerns only lines of the sheet and costs, up to that event, less than `below`. Afterwards the events are as they were.
///
/// Nothing says that it is the only one, or the cheapest; the search ends once it took `limit` steps, about as many as the events that it went over. It fails
/// only if memory runs out.
pub(crate) fn first_step(
    alloc: Global,
    rules: &Rules,
    list: &WordList,
    events: &mut Events,
    below: u128,
    limit: u64,
) -> Result<Option<Head>, AllocError>
    ensures step { IfOk result (λ step. IfSome step (IsStep rules.now list.now events.old)) }
    ensures same { OnOk result (events.new ≡ events.old) }
{
    let walk = walk_as_written(alloc, rules, list, events)?;
    if walk.stopped.is_none() {
        return Ok(None);
    }
    step_of(alloc, rules, list, &walk, events.as_slice(), below, limit)
}
