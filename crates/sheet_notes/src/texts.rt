//! The text of an annotated sheet.
ghost use Rattle.std.specs.Prelude.{IfOk};
ghost use Rattle.sheet_notes.specs.Texts.{IsAnnotated};

use crate::notes::{push_note, push_sentences};
use crate::sheets::{AnnotatedSheet, EventNote};
use explain_lines::push_reason;
use gcg_notes::push_with_notes;
use std::alloc::{AllocError, Global};

/// Appends notes, a line for each.
fn push_notes(text: &mut Vec<u8>, notes: &[EventNote]) -> Result<(), AllocError> {
    for note in notes {
        push_note(text, note)?;
        text.push(b'\n')?;
    }
    Ok(())
}

/// Appends why the faulty line is refused, in one line, if there is one.
fn push_refusal(
    alloc: Global,
    text: &mut Vec<u8>,
    sheet: &AnnotatedSheet,
) -> Result<(), AllocError> {
    let Ok(entry) = &sheet.case.read else {
        return Ok(());
    };
    let mut reason = Vec::new(alloc);
    push_reason(&mut reason, &entry.record.players, sheet.refusal.as_ref())?;
    push_sentences(text, reason.as_slice().trim_ascii_end())
}

/// The lines of the notes: a line for each event that has one, and one for the faulty line.
fn lines_of(alloc: Global, sheet: &AnnotatedSheet) -> Result<Vec<u8>, AllocError> {
    let mut lines = Vec::new(alloc);
    push_notes(&mut lines, sheet.notes.as_slice())?;
    push_refusal(alloc, &mut lines, sheet)?;
    Ok(lines)
}

/// The text of a sheet with notes: after each turn its best play, with its score and how many points more it would have given or that it would have
/// given as many, the next best ones if they are wanted, and the words of a play that are not in the list. After the faulty line a note says why it is refused, and there is none after
/// that.
///
/// It fails only if memory runs out.
pub fn annotated_text(alloc: Global, sheet: &AnnotatedSheet) -> Result<Vec<u8>, AllocError>
    ensures { IfOk result (λ text. IsAnnotated sheet.now.case.text.items text.items) }
{
    let notes = lines_of(alloc, sheet)?;
    let mut text = Vec::new(alloc);
    push_with_notes(&mut text, sheet.case.text.as_slice(), notes.as_slice())?;
    Ok(text)
}
