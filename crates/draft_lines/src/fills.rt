//! What is found of a draft.

use draft_answers::{FilledDraft, put_in};
use explain_parts::say;
use sheet_audit::push_audit;
use std::alloc::{AllocError, Global};

/// Appends how many scores and totals were put into a draft, and what `audit` prints of the sheet that it makes: a line for each wrong number, what is
/// said of a bonus or a penalty that would explain them, the verdict line, and who is ahead.
///
/// It fails only if memory runs out.
pub fn push_fill(
    alloc: Global,
    text: &mut Vec<u8>,
    filled: &FilledDraft,
    amount: &[u8],
) -> Result<(), AllocError> {
    let many = put_in(filled);
    say!(text; "put in: ", (many.scores, "score"), ", ", (many.totals, "total"), "\n")?;
    push_audit(alloc, text, &filled.answer.audit, amount)
}
