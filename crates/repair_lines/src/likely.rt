//! The likely repair of a record in words, and a bonus or a penalty that would explain its numbers.

use crate::changes::push_change_of;
use crate::evidence::{push_evidence, push_share};
use crate::sheet_slips::push_sheet_slip;
use crate::sheets::push_sheet_evidence;
use gcg_read::Record;
use repair_answers::{Likely, SheetRepair};
use repair_changes::numbers_with;
use repair_single::Repair;
use std::alloc::AllocError;

/// Appends a repair after these words, and its evidence.
fn push_suggested(
    text: &mut Vec<u8>,
    record: &Record,
    words: &[u8],
    repair: &Repair,
) -> Result<(), AllocError> {
    text.extend_from_slice(words)?;
    push_change_of(text, record, repair)?;
    text.extend_from_slice(b"\n")?;
    let numbers = numbers_with(&repair.listed.change.slip, record.events.len());
    push_evidence(text, &repair.remains, numbers)
}

/// Appends a likely slip of the whole sheet, on a line that begins with `Likely: `, and its evidence.
fn push_likely_sheet(
    text: &mut Vec<u8>,
    record: &Record,
    repair: &SheetRepair,
) -> Result<(), AllocError> {
    text.extend_from_slice(b"Likely: ")?;
    push_sheet_slip(text, record.events.as_slice(), &repair.slip)?;
    text.extend_from_slice(b"\n")?;
    push_sheet_evidence(text, repair)
}

/// Appends the likely repair of a record, if it has one: what is wrong on a line that begins with `Likely: `, and its evidence.
///
/// It fails only if memory runs out.
pub fn push_likely(
    text: &mut Vec<u8>,
    record: &Record,
    likely: Option<&Likely>,
) -> Result<(), AllocError> {
    match likely {
        Some(Likely::Change(repair)) => push_suggested(text, record, b"Likely: ", repair),
        Some(Likely::Sheet(repair)) => push_likely_sheet(text, record, repair),
        None => Ok(()),
    }
}

/// Appends a bonus or a penalty that would explain the numbers of a record, if there is one: its change on a line that begins with `Or: `, and its
/// evidence.
///
/// It fails only if memory runs out.
pub fn push_amount(
    text: &mut Vec<u8>,
    record: &Record,
    amount: Option<&Repair>,
) -> Result<(), AllocError> {
    match amount {
        Some(repair) => push_suggested(text, record, b"Or: ", repair),
        None => Ok(()),
    }
}

/// Appends what is wrong with a record by its likely repair.
///
/// It fails only if memory runs out.
pub fn push_likely_change(
    text: &mut Vec<u8>,
    record: &Record,
    likely: &Likely,
) -> Result<(), AllocError> {
    match likely {
        Likely::Change(repair) => push_change_of(text, record, repair),
        Likely::Sheet(repair) => push_sheet_slip(text, record.events.as_slice(), &repair.slip),
    }
}

/// Appends how many numbers of a record are right with its likely repair, and how many there are, such as `90 of 90`.
///
/// It fails only if memory runs out.
pub fn push_likely_numbers(
    text: &mut Vec<u8>,
    record: &Record,
    likely: &Likely,
) -> Result<(), AllocError> {
    match likely {
        Likely::Change(repair) => {
            let numbers = numbers_with(&repair.listed.change.slip, record.events.len());
            push_share(text, &repair.remains, numbers)
        }
        Likely::Sheet(repair) => {
            push_share(text, &repair.alone.remains, 2 * repair.right.len() as u128)
        }
    }
}
