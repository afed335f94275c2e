//! Which lines of a text are not read although they look like events, and which begin like events and are none.

use crate::missing::push_missing;
use crate::record_faults::push_record_fault;
use explain_clues::line_of;
use explain_parts::say;
use gcg_read::ReadFault;
use gcg_unread::{faulty_lines, unread_lines};
use std::alloc::{AllocError, Global};
use text_lines::{Lines, next_field, without_mark};

/// How many lines are named one by one.
pub const MOST_NAMED: usize = 10;

/// Appends how many lines there are besides those that are named, if there are more, and what is true of them.
fn push_more(
    text: &mut Vec<u8>,
    lines: usize,
    one: &'static str,
    several: &'static str,
) -> Result<(), AllocError> {
    let more = lines.saturating_sub(MOST_NAMED);
    if more == 0 {
        return Ok(());
    }
    let reported = if more == 1 { one } else { several };
    say!(text; (more, "more line"), reported)
}

/// Appends which lines of a text are not read although they look like events, a sentence for each of the first ones.
pub fn push_unread_lines(
    alloc: Global,
    text: &mut Vec<u8>,
    bytes: &[u8],
) -> Result<(), AllocError> {
    let lines = unread_lines(alloc, bytes)?;
    for unread in lines.as_slice().iter().take(MOST_NAMED) {
        say!(text; "Line ", unread.line, " is not read: ", unread.why.sentence(), ".\n")?;
    }
    push_more(text, lines.len(), " is not read.\n", " are not read.\n")
}

/// Whether a field of an event line is `(TIME)`, which is a last rack.
fn has_time_as_rack(line: &[u8]) -> bool {
    if !line.starts_with(b">") {
        return false;
    }
    let mut remaining = line;
    for _k in 0..line.len() {
        let Some(field) = next_field(remaining) else {
            return false;
        };
        if field.bytes == b"(TIME)".as_slice() {
            return true;
        }
        remaining = field.after;
    }
    false
}

/// Appends which lines of a text have `(TIME)`, which is a last rack and no penalty.
pub fn push_time_racks(text: &mut Vec<u8>, bytes: &[u8]) -> Result<(), AllocError> {
    let mut number: u32 = 0;
    for line in Lines::of(without_mark(bytes)) {
        number = number.saturating_add(1);
        if has_time_as_rack(line) {
            say!(text; "(TIME) on line ", number, " is a last rack with the tiles T, I, M and E: a penalty is written (time).\n")?;
        }
    }
    Ok(())
}

/// Appends why a text is not a record, by the fault of one of its lines, and what the line lacks, if that can be found out: a sentence for each.
pub fn push_fault_sentences(
    alloc: Global,
    text: &mut Vec<u8>,
    bytes: &[u8],
    fault: ReadFault,
) -> Result<(), AllocError> {
    push_record_fault(alloc, text, bytes, fault.line, fault.why)?;
    let mut missing = Vec::new(alloc);
    push_missing(&mut missing, bytes, fault)?;
    if let [b' ', sentence @ ..] = missing.as_slice() {
        say!(text; sentence, "\n")?;
    }
    Ok(())
}

/// Appends a line as it is in the file, and what is wrong with it.
fn push_faulty_line(
    alloc: Global,
    text: &mut Vec<u8>,
    bytes: &[u8],
    fault: ReadFault,
) -> Result<(), AllocError> {
    let written = line_of(bytes, fault.line).unwrap_or(b"");
    say!(text; "line ", fault.line, ": ", written, "\n")?;
    push_fault_sentences(alloc, text, bytes, fault)
}

/// The lines of a text that begin like events and are none, without the one that is named first.
pub fn other_faults(
    alloc: Global,
    bytes: &[u8],
    first: ReadFault,
) -> Result<Vec<ReadFault>, AllocError> {
    let faults = faulty_lines(alloc, bytes)?;
    let mut others = Vec::new(alloc);
    for fault in faults.as_slice() {
        if fault.line != first.line {
            others.push(*fault)?;
        }
    }
    Ok(others)
}

/// Appends the other lines of a text that begin like events and are none, and what is wrong with each of the first ones.
pub fn push_other_faults(
    alloc: Global,
    text: &mut Vec<u8>,
    bytes: &[u8],
    first: ReadFault,
) -> Result<(), AllocError> {
    let others = other_faults(alloc, bytes, first)?;
    for fault in others.as_slice().iter().take(MOST_NAMED) {
        push_faulty_line(alloc, text, bytes, *fault)?;
    }
    push_more(
        text,
        others.len(),
        " begins with > and is not an event.\n",
        " begin with > and are not events.\n",
    )
}
