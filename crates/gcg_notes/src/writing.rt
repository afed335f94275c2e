//! The lines of a sheet with notes.
ghost use Rattle.std.specs.Prelude.{◌≡◌, ◌++◌, ◌∷◌, ℕ, List, IfOk, OnOk};
ghost use Rattle.std.specs.List.{join_with_byte};
ghost use Rattle.gcg_numbers.specs.Lines.{parts_after};
ghost use Rattle.gcg_notes.specs.Notes.{first_noted, with_notes, text_with_notes};
ghost use Rattle.gcg_notes.specs.Writing.{note_after};

use gcg_numbers::{cut_raw_line, is_event_line, push_mark};
use std::alloc::AllocError;
use text_lines::without_mark;

/// Appends an LF and the line of a note, which ends in a CR if the line before it does; nothing if the note is empty.
fn push_note(out: &mut Vec<u8>, line: &[u8], note: &[u8]) -> Result<(), AllocError>
    ensures { OnOk result (out.new.items ≡ out.old.items ++ note_after line.now note.now) }
{
    if note.is_empty() {
        return Ok(());
    }
    out.extend_from_slice(b"\n#note ")?;
    out.extend_from_slice(note)?;
    if line.ends_with(b"\r") {
        out.push(b'\r')?;
    }
    Ok(())
}

/// Appends a line of a sheet and, if it is that of an event, the first of the notes; returns the notes that are left.
#[tactic(auto, using(crate::proofs::Rounds::none_remaining_of, crate::proofs::Rounds::some_remaining_of))]
fn push_next<'a>(
    out: &mut Vec<u8>,
    line: &[u8],
    notes: Option<&'a [u8]>,
) -> Result<Option<&'a [u8]>, AllocError>
    ensures line { IfOk result (λ remaining. (lines : List (List ℕ)) → with_notes (parts_after notes.entry) (line.now ∷ lines) ≡ first_noted (parts_after notes.entry) line.now ++ with_notes (parts_after remaining) lines) }
    ensures done { OnOk result (out.new.items ≡ out.old.items ++ join_with_byte 10 (first_noted (parts_after notes.entry) line.now)) }
{
    out.extend_from_slice(line)?;
    let Some(remaining) = notes else {
        return Ok(None);
    };
    if !is_event_line(line) {
        return Ok(Some(remaining));
    }
    let note = cut_raw_line(remaining);
    push_note(out, line, note.line)?;
    Ok(note.after)
}

/// Appends the text of a sheet with notes: each line of `notes` belongs to one event, in order, and comes after its line as a line
/// `#note`; an empty one is left out. Nothing else is changed.
///
/// # Errors
///
/// Memory ran out.
#[tactic(auto, using(crate::proofs::Rounds::one_line_more, crate::proofs::Rounds::at_the_end), unfolding(crate::specs::Notes::text_with_notes))]
pub fn push_with_notes(out: &mut Vec<u8>, text: &[u8], notes: &[u8]) -> Result<(), AllocError>
    ensures { OnOk result (out.new.items ≡ out.old.items ++ text_with_notes notes.now text.now) }
{
    let unmarked = without_mark(text);
    push_mark(out, text)?;
    let mut cut = cut_raw_line(unmarked);
    let mut remaining = Some(notes);
    while let Some(after) = cut.after {
        remaining = push_next(out, cut.line, remaining)?;
        out.push(b'\n')?;
        cut = cut_raw_line(after);
    }
    push_next(out, cut.line, remaining)?;
    Ok(())
}
