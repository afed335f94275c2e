//! Which choices go furthest. Nothing is claimed about this search.

use crate::events::events_of;
use compare_alignments::count_with_own_racks;
use compare_choices::Sheets;
use game_walk::walk_and_correct;
use lex_list::WordList;
use ref_tiles::Rules;
use std::alloc::{AllocError, Global};

/// The largest number of choices that are repaired.
const MOST_TRIED: usize = 8;

/// A choice, and how far its correction goes.
#[derive(Clone, Copy)]
pub(crate) struct Reach {
    /// The choice.
    pub(crate) choice: usize,
    /// The place of the refused event, or one after all if none is refused.
    place: usize,
}

/// How far the correction of a choice goes.
fn reach_of(
    alloc: Global,
    rules: &Rules,
    list: &WordList,
    sheets: &Sheets,
    choice: usize,
) -> Result<Reach, AllocError> {
    let mut events = events_of(alloc, sheets, choice)?;
    let walk = walk_and_correct(alloc, rules, list, &mut events)?;
    let place = if walk.stopped.is_some() {
        walk.rows.len()
    } else {
        usize::MAX
    };
    Ok(Reach { choice, place })
}

/// Whether one choice of some goes no further than another.
fn is_no_further(reaches: &[Reach], index: usize, other: usize) -> bool {
    match (reaches.get(index), reaches.get(other)) {
        (Some(one), Some(other)) => one.place <= other.place,
        _ => false,
    }
}

/// Which of some choices goes least far; the last of equal ones.
fn least_far(reaches: &[Reach]) -> usize {
    let mut least = 0;
    for index in 0..reaches.len() {
        if is_no_further(reaches, index, least) {
            least = index;
        }
    }
    least
}

/// Adds a choice to those that go furthest, if it is one of them.
fn push_reach(first: &mut Vec<Reach>, reach: Reach) -> Result<(), AllocError> {
    if first.len() < MOST_TRIED {
        first.push(reach)?;
        return Ok(());
    }
    let least = least_far(first.as_slice());
    if let Some(there) = first.get_mut(least) {
        if reach.place > there.place {
            *there = reach;
        }
    }
    Ok(())
}

/// The choices that go furthest, of those that take each rack from the player's own sheet: the rules do not look at stated racks.
///
/// It fails only if memory runs out.
pub(crate) fn furthest(
    alloc: Global,
    rules: &Rules,
    list: &WordList,
    sheets: &Sheets,
) -> Result<Vec<Reach>, AllocError> {
    let mut first = Vec::new(alloc);
    for choice in 0..count_with_own_racks(sheets.pairs.as_slice()) {
        push_reach(&mut first, reach_of(alloc, rules, list, sheets, choice)?)?;
    }
    Ok(first)
}
