//! Drafts of records, and reading them.
ghost use Rattle.std.specs.Prelude.{◌≡◌, IfOk};
ghost use Rattle.gcg_drafts.specs.Drafts.{IsDraftOf};
ghost use Rattle.gcg_drafts.specs.Texts.{completed_text};

use crate::completing::push_completed;
use crate::missing::Missing;
use crate::noting::missing_in;
use gcg_read::{ReadFault, Record, read};
use std::alloc::{AllocError, Global};

/// A draft: a record of which numbers may be missing.
#[derive(Drop)]
pub struct Draft {
    /// The text with a score `+0` and a total `0` in the place of those that are missing.
    pub text: Vec<u8>,
    /// The record that this text is.
    pub record: Record,
    /// What each event line lacks, in their order.
    pub missing: Vec<Missing>,
}

/// The text of a draft with numbers in the place of those that are missing.
fn text_of(alloc: Global, text: &[u8]) -> Result<Vec<u8>, AllocError>
    ensures { IfOk result (λ whole. whole.items ≡ completed_text text.now) }
{
    let mut whole = Vec::new(alloc);
    push_completed(&mut whole, text)?;
    Ok(whole)
}

/// Reads a draft: a record, each event line of which may lack its total, or its score and its total. The line of a challenge or a penalty needs its
/// score. What a line lacks is told from the left: after the colon come a rack or nothing, then a position and a word, or a code, and then the
/// numbers that are there.
///
/// # Errors
///
/// The first fault of the record that the text is with numbers in the place of those that are missing. [`amiss_on`](crate::amiss_on) says
/// which field the line of such a fault lacks, or that it has too many.
pub fn read_draft(alloc: Global, text: &[u8]) -> Result<Draft, ReadFault>
    ensures { IsDraftOf text.now result }
{
    let whole = text_of(alloc, text)?;
    let record = match read(alloc, &whole) {
        Ok(record) => record,
        Err(fault) => return Err(fault),
    };
    let missing = missing_in(alloc, text)?;
    Ok(Draft {
        text: whole,
        record,
        missing,
    })
}
