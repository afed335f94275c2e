//! What explains a case, or one of its lines, in words.

use crate::cases::{NO_GAME, has_no_event};
use crate::encodings::in_utf8;
use explain_lines::push_explanation;
use game_case::Entry;
use gcg_about::Encoding;
use repair_lines::{push_amount, push_likely};
use reply_answers::ExplainedCase;
use reply_calls::Printed;
use sheet_audit::push_last_line;
use std::alloc::{AllocError, Global};

/// Appends what is said of a record as a whole after its explanation: its likely repair; or if it has none, a bonus or a penalty that would explain
/// its numbers, and who is ahead by the right ones.
fn push_end(
    reported: &mut Vec<u8>,
    explained: &ExplainedCase,
    entry: &Entry,
) -> Result<(), AllocError> {
    push_likely(reported, &entry.record, explained.likely.as_ref())?;
    push_amount(reported, &entry.record, explained.amount.as_ref())?;
    match &explained.wrong {
        Some(audit) => push_last_line(reported, audit),
        None => Ok(()),
    }
}

/// What explains a case, or one of its lines. If the record states its encoding, names in it are UTF-8.
fn text_of(alloc: Global, explained: &ExplainedCase) -> Result<Vec<u8>, AllocError> {
    let case = &explained.case;
    let mut reported = Vec::new(alloc);
    push_explanation(
        alloc,
        &mut reported,
        case,
        explained.line,
        explained.explanation.as_ref(),
    )?;
    if let Ok(entry) = &case.read {
        push_end(&mut reported, explained, entry)?;
    }
    in_utf8(alloc, reported, Encoding::of(case.text.as_slice()))
}

/// What explains a case, or one of its lines, in words.
pub fn explained_words(alloc: Global, explained: &ExplainedCase) -> Result<Printed, AllocError> {
    if has_no_event(&explained.case) {
        return Printed::of_bytes(alloc, NO_GAME);
    }
    Ok(Printed::report(text_of(alloc, explained)?))
}
