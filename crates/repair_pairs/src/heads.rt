//! The search for heads: changes with which the rules allow the first refused event too, so that the fault moves on. Nothing is claimed about the search:
//! `listed_at` and `made_by` say what a head is.
ghost use Rattle.std.specs.Prelude.{◌≤◌};
ghost use Rattle.gcg_read.specs.Numerals.{IsPoints};

use game_corrections::{had_before, is_right_sum, mend};
use game_turns::{Machine, unlisted_of, withdraws};
use game_walk::{Row, Walk, walk_as_written};
use gcg_read::{Event, Events};
use lex_list::WordList;
use ref_tiles::Rules;
use repair_changes::{
    Change, NUMBER, WORD, apply, copy_slip, lines_there, weight_of, wrong_events,
};
use repair_single::on_sheet;
use repair_slips::slips_at;
use std::alloc::{AllocError, Global};

/// How many events after a change are taken before the game is compared with that of the record. A play that is taken back leaves its tiles in view for
/// one more event.
const NEAR: usize = 3;

/// A change with which the fault moves on, by its position in the list of all changes.
#[derive(Clone, Copy)]
pub(crate) struct HeadAt {
    /// Its place in the record.
    pub(crate) place: usize,
    /// Its number among the changes there.
    pub(crate) index: usize,
    /// What it costs up to the first refused event.
    pub(crate) cost: u128,
}

/// The place from which a change has to be tried: the one before it, if the event there is taken back with the change but not without it, or the other
/// way round; otherwise its own place.
fn start_of(events: &[Event], changed: &[Event], place: usize) -> usize {
    if withdraws(changed.get(place)) == withdraws(events.get(place)) {
        place
    } else {
        place.saturating_sub(1)
    }
}

/// How many events have to be allowed with a change: up to the first refused one, or up to the last one that the change adds.
fn end_of(walk: &Walk, events: &[Event], changed: &[Event], change: &Change) -> usize {
    let following = events
        .len()
        .saturating_sub(walk.rows.len())
        .saturating_sub(1);
    let refused = changed.len().saturating_sub(following);
    let there = change.place.saturating_add(lines_there(&change.slip));
    if there > refused { there } else { refused }
}

/// The game after the events from one place to another, which get their right numbers; `None` if one of them is refused.
fn game_after(
    game: &Machine,
    events: &mut Events,
    start: usize,
    end: usize,
    list: &WordList,
    spent: &mut u64,
) -> Option<Machine> {
    let mut machine = game.copy();
    for place in start..end {
        *spent = spent.saturating_add(1);
        if mend(&mut machine, events, place, list).is_err() {
            return None;
        }
    }
    Some(machine)
}

/// Whether the fault does not move on with a change, as far as the events near it show: one of them is refused with it, or the game after them is as it
/// was without it, so that the first refused event is refused again.
///
/// It fails only if memory runs out.
fn fault_stays(
    alloc: Global,
    list: &WordList,
    walk: &Walk,
    events: &[Event],
    change: &Change,
    spent: &mut u64,
) -> Result<bool, AllocError> {
    let least = change.place.saturating_add(wrong_events(&change.slip));
    let end = least.saturating_add(NEAR).min(walk.rows.len());
    if end < least {
        return Ok(false);
    }
    let start = change.place.saturating_sub(1);
    let Some(there) = events.get(start..end.saturating_add(1)) else {
        return Ok(false);
    };
    let (Some(game), Some(other)) = (walk.before(start), walk.before(end)) else {
        return Ok(false);
    };
    let here = Change {
        place: change.place - start,
        slip: copy_slip(&change.slip),
    };
    let mut near = apply(alloc, &here, there)?;
    let last = near.len().saturating_sub(1);
    match game_after(game, &mut near, 0, last, list, spent) {
        Some(machine) => Ok(machine.is_like(other)),
        None => Ok(true),
    }
}

/// How many numbers of a line are wrong, given what the player had before it.
fn wrong_on(row: &Row, had: i32) -> u128
    requires { IsPoints had }
    ensures { result ≤ 2 }
{
    let mut wrong = 0;
    if row.written.score.value() != row.right.score.value() {
        wrong += 1;
    }
    let right = Some(row.right.total.value());
    if !is_right_sum(row.written.total, had, row.written.score, right) {
        wrong += 1;
    }
    wrong
}

/// What a line costs: its wrong numbers, and its words that stand although they are not in the list.
fn line_cost(alloc: Global, list: &WordList, row: &Row, had: i32) -> Result<u128, AllocError>
    requires { IsPoints had }
{
    let words = unlisted_of(alloc, list, row.following.standing_words())?;
    Ok(NUMBER * wrong_on(row, had) + WORD * words.len() as u128)
}

/// What the lines of a sheet before the place `end` cost.
fn front_cost(
    alloc: Global,
    rules: &Rules,
    list: &WordList,
    sheet: &mut Events,
    end: usize,
) -> Result<u128, AllocError> {
    let walk = walk_as_written(alloc, rules, list, sheet)?;
    let events = sheet.as_slice();
    let mut cost: u128 = 0;
    for place in 0..end {
        let Some(row) = walk.rows.as_slice().get(place) else {
            return Ok(cost);
        };
        let Some(event) = events.get(place) else {
            return Ok(cost);
        };
        let had = had_before(events, event.player, place);
        cost = cost.saturating_add(line_cost(alloc, list, row, had)?);
    }
    Ok(cost)
}

/// What a change costs, if the fault moves on with it. Adds the steps that this takes: about as many as the events that are gone over.
fn head_cost(
    alloc: Global,
    rules: &Rules,
    list: &WordList,
    walk: &Walk,
    events: &[Event],
    change: &Change,
    spent: &mut u64,
) -> Result<Option<u128>, AllocError> {
    if fault_stays(alloc, list, walk, events, change, spent)? {
        return Ok(None);
    }
    let mut changed = apply(alloc, change, events)?;
    let end = end_of(walk, events, changed.as_slice(), change);
    let start = start_of(events, changed.as_slice(), change.place);
    let Some(game) = walk.before(start) else {
        return Ok(None);
    };
    if game_after(game, &mut changed, start, end, list, spent).is_none() {
        return Ok(None);
    }
    *spent = spent.saturating_add(3 * events.len() as u64);
    let mut sheet = on_sheet(alloc, change, events, changed.as_slice())?;
    let cost = front_cost(alloc, rules, list, &mut sheet, end)?;
    Ok(Some(cost.saturating_add(weight_of(&change.slip) as u128)))
}

/// Adds the changes at a place with which the fault moves on.
fn push_heads(
    alloc: Global,
    found: &mut Vec<HeadAt>,
    rules: &Rules,
    list: &WordList,
    walk: &Walk,
    events: &[Event],
    place: usize,
    spent: &mut u64,
) -> Result<(), AllocError> {
    if place > events.len() {
        return Ok(());
    }
    let Some(game) = walk.before(place) else {
        return Ok(());
    };
    let slips = slips_at(alloc, rules, game, events, place)?;
    let mut index: usize = 0;
    for slip in slips {
        let change = Change { place, slip };
        if let Some(cost) = head_cost(alloc, rules, list, walk, events, &change, spent)? {
            found.push(HeadAt { place, index, cost })?;
        }
        index = index.saturating_add(1);
    }
    Ok(())
}

/// The changes with which the fault moves on, in the order of the list. The last places are tried first; those before are not tried once the search took
/// `limit` steps.
fn heads_within(
    alloc: Global,
    rules: &Rules,
    list: &WordList,
    walk: &Walk,
    events: &[Event],
    limit: u64,
) -> Result<Vec<HeadAt>, AllocError> {
    let rows = walk.rows.len();
    let mut spent = 0;
    let mut found = Vec::new(alloc);
    for following in 0..rows + 1 {
        if spent >= limit {
            return Ok(found);
        }
        let mut here = Vec::new(alloc);
        let place = rows - following;
        push_heads(
            alloc, &mut here, rules, list, walk, events, place, &mut spent,
        )?;
        here.append(&mut found)?;
        found = here;
    }
    Ok(found)
}

/// The changes with which the fault moves on, those that cost least first, and of equal costs in the order of the list. The search ends at a place once it
/// took `limit` steps.
///
/// It fails only if memory runs out.
pub(crate) fn heads_of(
    alloc: Global,
    rules: &Rules,
    list: &WordList,
    walk: &Walk,
    events: &[Event],
    limit: u64,
) -> Result<Vec<HeadAt>, AllocError> {
    let mut found = heads_within(alloc, rules, list, walk, events, limit)?;
    found.sort_by_key(|head| head.cost)?;
    Ok(found)
}
