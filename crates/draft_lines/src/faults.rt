//! The fault of a draft in words.

use draft_answers::DraftFault;
use engine_stages::{Decision, InputFault};
use explain_parts::say;
use gcg_drafts::Amiss;
use std::alloc::{AllocError, Global};

/// What a line lacks, or that it has too many fields.
fn amiss_words(amiss: &Amiss) -> &'static str {
    match amiss {
        Amiss::NoEvent => "After the colon comes neither a position and a word nor a code.",
        Amiss::NoWord => "After the position comes no word.",
        Amiss::NoScore => {
            "The line has no score. The rules allow several for a challenge or a penalty, so it has to be written."
        }
        Amiss::TooMany => "More than a score and a total come after the word or the code.",
    }
}

/// Appends the line of the fault of a draft, as it is printed for a record; and, if its line lacks a field or has too many, a line that says so.
///
/// It fails only if memory runs out.
pub fn push_draft_fault(
    alloc: Global,
    text: &mut Vec<u8>,
    fault: &DraftFault,
) -> Result<(), AllocError> {
    let decision = Decision::refused(alloc, InputFault::Game(fault.fault))?;
    text.extend_from_slice(decision.report.as_slice())?;
    let Some(amiss) = &fault.amiss else {
        return Ok(());
    };
    say!(text; amiss_words(amiss), "\n")
}
