//! A slip of the whole sheet that repairs a record.

use crate::evidence::push_evidence;
use crate::sheet_slips::push_sheet_slip;
use gcg_read::Record;
use repair_answers::SheetRepair;
use std::alloc::AllocError;

/// Appends the evidence for a slip of the whole sheet.
pub(crate) fn push_sheet_evidence(
    text: &mut Vec<u8>,
    repair: &SheetRepair,
) -> Result<(), AllocError> {
    let numbers = 2 * repair.right.len() as u128;
    push_evidence(text, &repair.alone.remains, numbers)
}

/// Appends a slip of the whole sheet that repairs a record, and its evidence.
pub(crate) fn push_sheet(
    text: &mut Vec<u8>,
    record: &Record,
    repair: &SheetRepair,
) -> Result<(), AllocError> {
    push_sheet_slip(text, record.events.as_slice(), &repair.slip)?;
    push_sheet_end(text, repair)
}

/// Appends whether a deal was found without a slip of the whole sheet, and the evidence for it.
pub(crate) fn push_sheet_end(text: &mut Vec<u8>, repair: &SheetRepair) -> Result<(), AllocError> {
    text.extend_from_slice(if repair.alone.is_game {
        b"\n"
    } else {
        b" (no deal was found)\n"
    })?;
    push_sheet_evidence(text, repair)
}
