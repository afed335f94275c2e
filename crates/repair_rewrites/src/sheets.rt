//! The text of a sheet without a slip of the whole sheet.
ghost use Rattle.std.specs.Prelude.{◌≡◌, ◌++◌, IfOk};
ghost use Rattle.gcg_numbers.specs.Numbers.{text_with};
ghost use Rattle.repair_sheets.specs.Mending.{mended_text};
ghost use Rattle.repair_rewrites.specs.Sheets.{sheet_without};

use crate::running::text_without;
use crate::writing::can_be_written;
use gcg_numbers::push_with_numbers;
use gcg_read::{Event, Players};
use repair_sheets::{SheetSlip, mended_text};
use std::alloc::{AllocError, Global};

/// The text of a sheet without a slip that is on one line, with the right numbers.
fn text_with_line(
    alloc: Global,
    text: &[u8],
    slip: &SheetSlip,
    right: &[Event],
) -> Result<Vec<u8>, AllocError>
    ensures { IfOk result (λ made. made.items ≡ text_with right.now (mended_text slip.now text.now)) }
{
    let mended = mended_text(alloc, slip, text)?;
    let mut out = Vec::new(alloc);
    push_with_numbers(&mut out, mended.as_slice(), right)?;
    Ok(out)
}

/// The text of a sheet without a slip of the whole sheet, given the events without it, with their right numbers.
///
/// # Errors
///
/// Memory ran out.
pub(crate) fn sheet_without(
    alloc: Global,
    text: &[u8],
    players: &Players,
    slip: &SheetSlip,
    right: &[Event],
) -> Result<Vec<u8>, AllocError>
    ensures { IfOk result (λ made. made.items ≡ sheet_without slip.now players.now right.now text.now) }
{
    match slip {
        SheetSlip::Unread(_) | SheetSlip::ExtraMark { .. } | SheetSlip::NoPlace { .. } => {
            text_with_line(alloc, text, slip, right)
        }
        SheetSlip::Running {
            place,
            slip: running,
        } => { text_without(alloc, text, players, *running, *place, right) }
    }
}

/// Whether a sheet with these players can be written without a slip of the whole sheet: a line that is written anew needs a nickname.
pub fn can_be_without(players: &Players, slip: &SheetSlip, right: &[Event]) -> bool {
    match slip {
        SheetSlip::Unread(_) | SheetSlip::ExtraMark { .. } | SheetSlip::NoPlace { .. } => true,
        SheetSlip::Running { .. } => can_be_written(players, right),
    }
}
