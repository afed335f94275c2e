//! The notes of a record.
ghost use Rattle.std.specs.Prelude.{◌≡◌, ◌++◌, ◌<◌, ◌≤◌, ◌+◌, IfOk, OnOk, map};
ghost use Rattle.text_lines.specs.Lines.{lines_in};
ghost use Rattle.gcg_about.specs.Notes.{note_in, note_on, is_event, following, notes_from};

use crate::pragmas::said;
use std::alloc::{AllocError, Global};
use text_lines::Lines;

/// A note of a record.
#[derive(Drop)]
pub struct Note {
    /// How many lines of events are before it: it goes with the last of them.
    pub after: usize,
    /// What it says.
    pub text: Vec<u8>,
}

/// Whether a line is that of an event.
fn is_event(line: &[u8]) -> bool
    ensures { result ≡ is_event line.now }
{
    line.starts_with(b">")
}

/// How many lines of events are before the line after this one.
#[tactic(auto, unfolding(crate::specs::Notes::following))]
fn following(after: usize, line: &[u8]) -> usize
    requires { after < 9223372036854775808 }
    ensures count { result ≡ following after line.now }
    ensures step { result ≤ after + 1 }
{
    if is_event(line) { after + 1 } else { after }
}

/// Adds the note of a line, if it is one.
fn push_note(
    alloc: Global,
    notes: &mut Vec<Note>,
    after: usize,
    line: &[u8],
) -> Result<(), AllocError>
    ensures { OnOk result (map note_in notes.new.items ≡ map note_in notes.old.items ++ note_on after line.now) }
{
    let Some(text) = said(b"#note", line) else {
        return Ok(());
    };
    let text = Vec::from_slice(alloc, text)?;
    notes.push(Note { after, text })?;
    Ok(())
}

/// The notes of a text, in their order.
pub fn notes_of(alloc: Global, text: &[u8]) -> Result<Vec<Note>, AllocError>
    ensures { IfOk result (λ notes. map note_in notes.items ≡ notes_from 0 (lines_in text.now)) }
{
    let mut notes = Vec::new(alloc);
    let mut after = 0;
    for line in Lines::of(text) {
        push_note(alloc, &mut notes, after, line)?;
        after = following(after, line);
    }
    Ok(notes)
}
