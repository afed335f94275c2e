//! The correction of a record with a change.
ghost use Rattle.std.specs.Prelude.{IsTrue, IsFalse, IfOk};
ghost use Rattle.game_corrections.specs.Corrections.{IsCorrection};
ghost use Rattle.repair_changes.specs.Applied.{applied};
ghost use Rattle.repair_single.specs.Trying.{HaveNone, IsCorrectionOf};

use crate::mending::mend;
use game_corrections::law_of_points;
use game_turns::{Machine, law_of_tallies};
use gcg_read::{Event, Events};
use lex_list::WordList;
use ref_tiles::Rules;
use repair_changes::{Change, apply};
use std::alloc::{AllocError, Global};

/// Gives each event of a record its right numbers. It is false if an event is refused whatever its numbers are.
fn correct(rules: &Rules, list: &WordList, events: &mut Events) -> bool
    ensures right { IsTrue result → IsCorrection rules.now list.now events.old events.new }
    ensures none { IsFalse result → HaveNone rules.now list.now events.old }
{
    law_of_tallies();
    let mut machine = Machine::new(rules);
    for place in 0..events.len() {
        if mend(&mut machine, events, place, list).is_err() {
            return false;
        }
    }
    true
}

/// The events of a record with a change and with their right numbers, if there are such numbers that a record can write.
///
/// It fails only if memory runs out.
pub(crate) fn corrected(
    alloc: Global,
    rules: &Rules,
    list: &WordList,
    change: &Change,
    events: &[Event],
) -> Result<Option<Events>, AllocError>
    ensures { IfOk result (IsCorrectionOf rules.now list.now (applied change.now events.now)) }
{
    let mut right = apply(alloc, change, events)?;
    if !correct(rules, list, &mut right) {
        return Ok(None);
    }
    law_of_points(right.as_slice());
    Ok(Some(right))
}
