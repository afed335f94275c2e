//! The record that a first change makes.
ghost use Rattle.std.specs.Prelude.{◌≡◌, IfOk, IfSome};
ghost use Rattle.repair_pairs.specs.Made.{IsMade};

use game_walk::walk_and_correct;
use gcg_read::{Event, Events};
use lex_list::WordList;
use ref_tiles::Rules;
use repair_changes::{Change, apply, lines_there};
use repair_single::on_sheet;
use std::alloc::{AllocError, Global};

/// The record that a change makes, with the numbers of the sheet, if the rules allow it up to the lines of the change.
///
/// It fails only if memory runs out.
pub(crate) fn made_by(
    alloc: Global,
    rules: &Rules,
    list: &WordList,
    events: &[Event],
    change: &Change,
) -> Result<Option<Events>, AllocError>
    ensures { IfOk result (λ found. IfSome found (IsMade rules.now list.now events.now change.now)) }
{
    let mut right = apply(alloc, change, events)?;
    let walk = walk_and_correct(alloc, rules, list, &mut right)?;
    let allowed = walk.rows.len();
    if change.place > allowed || lines_there(&change.slip) > allowed - change.place {
        return Ok(None);
    }
    let sheet = on_sheet(alloc, change, events, right.as_slice())?;
    Ok(Some(sheet))
}
