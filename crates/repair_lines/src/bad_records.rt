//! What repairs a text that is not a record.

use crate::sheet_slips::{push_sheet_slip, push_slip_difference};
use crate::sheets::push_sheet_end;
use explain_parts::{Part, say};
use repair_answers::{LineRepairs, SameCost, SheetRepair};
use std::alloc::AllocError;

/// How many of the others that cost the same are named.
const MOST_NAMED: usize = 3;

/// Appends in what the first of some repairs differ.
fn push_named(text: &mut Vec<u8>, others: &[SheetRepair]) -> Result<(), AllocError> {
    let mut between: &[u8] = b" (or ";
    for repair in others {
        text.extend_from_slice(between)?;
        push_slip_difference(text, &repair.slip)?;
        between = b", ";
    }
    Ok(())
}

/// Appends the repairs that cost what another one does: the first by what they differ in, and then how many more there are.
fn push_others(text: &mut Vec<u8>, others: &[SheetRepair]) -> Result<(), AllocError> {
    if others.is_empty() {
        return Ok(());
    }
    let named = others.len().min(MOST_NAMED);
    push_named(text, &others[..named])?;
    let more = others.len() - named;
    if more > 0 {
        say(
            text,
            &[Part::Say(" and "), Part::Many(more), Part::Say(" more")],
        )?;
    }
    text.extend_from_slice(b")")
}

/// Appends a repair, and those that cost the same.
fn push_same_cost(
    text: &mut Vec<u8>,
    found: &[SheetRepair],
    line: SameCost,
) -> Result<(), AllocError> {
    let Some([repair, others @ ..]) = found.get(line.first..line.first.saturating_add(line.many))
    else {
        return Ok(());
    };
    push_sheet_slip(text, &[], &repair.slip)?;
    push_others(text, others)?;
    push_sheet_end(text, repair)
}

/// Appends what repairs a text that is not a record, those that cost least first.
pub(crate) fn push_line_repairs(
    text: &mut Vec<u8>,
    repairs: &LineRepairs,
) -> Result<(), AllocError> {
    for line in repairs.lines.as_slice() {
        push_same_cost(text, repairs.found.as_slice(), *line)?;
    }
    Ok(())
}
