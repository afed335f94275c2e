//! The text of a corrected record.
ghost use Rattle.std.specs.Prelude.{◌≡◌, IfOk};
ghost use Rattle.gcg_numbers.specs.Numbers.{text_with};
ghost use Rattle.sheet_audit.specs.Corrected.{IsReadBack};

use game_case::Audit;
use gcg_numbers::{law_of_numbers, push_with_numbers};
use gcg_read::Event;
use std::alloc::{AllocError, Global};

/// The text of a sheet with the numbers of events.
fn renumbered_text(alloc: Global, text: &[u8], events: &[Event]) -> Result<Vec<u8>, AllocError>
    ensures { IfOk result (λ right. right.items ≡ text_with events.now text.now) }
{
    let mut right = Vec::new(alloc);
    push_with_numbers(&mut right, text, events)?;
    Ok(right)
}

/// The sheet of an audit with the scores and sums of its entry: of the corrected record, if [`is_corrected`](crate::is_corrected) says
/// that it stands. Every other byte is as it was given. Reading it gives that record, if it is no longer than a record may be.
///
/// It fails only if memory runs out.
pub fn corrected_text(alloc: Global, audit: &Audit) -> Result<Vec<u8>, AllocError>
    ensures text { IfOk result (λ text. text.items ≡ text_with audit.now.entry.record.events audit.now.text.items) }
    ensures again { IfOk result (λ text. IsReadBack audit.now text.items) }
{
    law_of_numbers();
    let text = renumbered_text(alloc, &audit.text, audit.entry.record.events.as_slice())?;
    Ok(text)
}
