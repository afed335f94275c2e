//! Reading a draft, or its first fault.
ghost use Rattle.std.specs.Prelude.{IfOk};
ghost use Rattle.draft_answers.specs.Filled.{IsDraftIn};

use crate::faults::{DraftFault, reported_fault};
use gcg_drafts::{Draft, read_draft};
use gcg_read::Why;
use std::alloc::{AllocError, Global};

/// The draft that a text is, or its first fault.
///
/// It fails only if memory runs out.
#[tactic(auto, using(crate::proofs::Sheets::no_draft))]
pub fn draft_in(alloc: Global, text: &[u8]) -> Result<Result<Draft, DraftFault>, AllocError>
    ensures { IfOk result (IsDraftIn text.now) }
{
    match read_draft(alloc, text) {
        Ok(draft) => Ok(Ok(draft)),
        Err(fault) => {
            if fault.why == Why::NoMemory {
                return Err(AllocError);
            }
            Ok(Err(reported_fault(text, fault)))
        }
    }
}
