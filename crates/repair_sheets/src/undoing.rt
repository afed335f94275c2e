//! The events of a record without a slip of the whole sheet.
ghost use Rattle.std.specs.Prelude.{◌≡◌, IfOk};
ghost use Rattle.repair_sheets.specs.Mending.{mended_text};
ghost use Rattle.repair_sheets.specs.Undoing.{events_in, without_slip};

use crate::mending::mended_text;
use crate::readings::events_in;
use crate::running::running_without;
use crate::slips::SheetSlip;
use gcg_read::{Event, Events};
use std::alloc::{AllocError, Global};

/// The events of a text without a slip that is on one line, if it is a record then.
fn with_line(alloc: Global, slip: &SheetSlip, text: &[u8]) -> Result<Option<Events>, AllocError>
    ensures { IfOk result (λ events. events ≡ events_in (mended_text slip.now text.now)) }
{
    let mended = mended_text(alloc, slip, text)?;
    events_in(alloc, mended.as_slice())
}

/// The events of a record without a slip of the whole sheet, given its text and the events that were read from it. `None` if the text with the line that
/// is mended is not a record, or if the slip cannot be on each line.
///
/// It fails only if memory runs out.
pub fn without_slip(
    alloc: Global,
    slip: &SheetSlip,
    text: &[u8],
    written: &[Event],
) -> Result<Option<Events>, AllocError>
    ensures { IfOk result (λ right. right ≡ without_slip slip.now text.now written.now) }
{
    match slip {
        SheetSlip::Unread(_) | SheetSlip::ExtraMark { .. } | SheetSlip::NoPlace { .. } => {
            with_line(alloc, slip, text)
        }
        SheetSlip::Running {
            place,
            slip: running,
        } => running_without(alloc, *running, *place, written),
    }
}
