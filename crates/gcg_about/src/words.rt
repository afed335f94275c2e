//! The words of a record.
ghost use Rattle.std.specs.Prelude.{◌≡◌, IfOk, option_map};
ghost use Rattle.gcg_about.specs.Words.{AreWordsOf};

use crate::notes::{Note, notes_of};
use crate::pragmas::first_said;
use std::alloc::{AllocError, Global};
use text_lines::without_mark;

/// What a record says in words besides its events. What it does not say is `None`.
#[derive(Drop)]
pub struct RecordWords {
    /// Its title: what the first `#title` says.
    pub title: Option<Vec<u8>>,
    /// Its event: what the first `#event` says.
    pub event: Option<Vec<u8>>,
    /// Its description: what the first `#description` says.
    pub description: Option<Vec<u8>>,
    /// The name of its lexicon: what the first `#lexicon` says.
    pub lexicon: Option<Vec<u8>>,
    /// Its notes: what each `#note` says, in their order.
    pub notes: Vec<Note>,
}

/// A copy of a text, if there is one.
fn copied(alloc: Global, text: Option<&[u8]>) -> Result<Option<Vec<u8>>, AllocError>
    ensures { IfOk result (λ copy. option_map (λ own. own.items) copy ≡ option_map (λ said. said.now) text.entry) }
{
    match text {
        Some(text) => Ok(Some(Vec::from_slice(alloc, text)?)),
        None => Ok(None),
    }
}

/// What the text of a record says in words besides its events.
///
/// It fails only if memory runs out.
///
/// These are what the first line of each kind (`#title`, `#event`, `#description`, `#lexicon`) says, and all notes.
pub fn words_of(alloc: Global, text: &[u8]) -> Result<RecordWords, AllocError>
    ensures { IfOk result (AreWordsOf text.now) }
{
    let text = without_mark(text);
    let notes = notes_of(alloc, text)?;
    Ok(RecordWords {
        title: copied(alloc, first_said(b"#title", text))?,
        event: copied(alloc, first_said(b"#event", text))?,
        description: copied(alloc, first_said(b"#description", text))?,
        lexicon: copied(alloc, first_said(b"#lexicon", text))?,
        notes,
    })
}
