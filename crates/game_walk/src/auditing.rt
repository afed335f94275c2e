//! The audit of a sheet.
ghost use Rattle.std.specs.Prelude.{◌≡◌, IfOk};
ghost use Rattle.game_corrections.specs.Auditing.{IsAudited};
ghost use Rattle.game_corrections.specs.Corrections.{KeepPoints};
ghost use Rattle.game_walk.specs.Walks.{IsWalk};

use crate::numbers::numbers_of;
use crate::refusals::stop_line;
use crate::totals::Totals;
use crate::walking::{Walk, walk_and_correct};
use crate::wrong_lines::{push_lines, push_totals};
use game_corrections::WrongNumber;
use gcg_read::Events;
use lex_list::WordList;
use ref_tiles::Rules;
use std::alloc::{AllocError, Global};

/// What an audit of a sheet found.
#[derive(Drop)]
pub struct Audited {
    /// The numbers that are wrong: scores and sums in the order of the sheet, and last totals.
    pub wrong: Vec<WrongNumber>,
    /// The walk over the events.
    pub walk: Walk,
}

/// Walks over the events of a sheet and corrects them: all wrong numbers, in the order of the sheet, and after them the wrong last
/// totals, if the sheet has a correction.
///
/// It fails only if memory runs out.
pub fn audit(
    alloc: Global,
    rules: &Rules,
    list: &WordList,
    events: &mut Events,
) -> Result<Audited, AllocError>
    ensures points { KeepPoints events.old events.new }
    ensures audited { IfOk result (λ a. IsAudited rules.now list.now events.old events.new a.wrong.items) }
    ensures walk { IfOk result (λ a. IsWalk rules.now list.now events.old events.new a.walk) }
{
    let numbers = numbers_of(alloc, events.as_slice())?;
    let walk = walk_and_correct(alloc, rules, list, events)?;
    let mut wrong = Vec::new(alloc);
    let mut totals = Totals::new();
    push_lines(
        &mut wrong,
        &mut totals,
        stop_line(&walk.stopped),
        numbers.as_slice(),
        events.as_slice(),
    )?;
    if walk.stopped.is_some() {
        return Ok(Audited { wrong, walk });
    }
    push_totals(&mut wrong, &totals, events.as_slice())?;
    Ok(Audited { wrong, walk })
}
