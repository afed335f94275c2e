//! The record that a draft makes.
ghost use Rattle.std.specs.Prelude.{◌≡◌, IfOk};
ghost use Rattle.gcg_numbers.specs.Numbers.{text_with};
ghost use Rattle.draft_answers.specs.Outs.{is_out, IsRecordOfDraft};

use crate::filled::FilledDraft;
use game_corrections::law_of_corrections;
use gcg_numbers::law_of_numbers;
use gcg_write::law_of_other_points;
use sheet_audit::{corrected_text, is_written};
use std::alloc::{AllocError, Global};

/// Whether the record of a draft is to be written: the rules refuse no line of it, no racks are ruled out, no bonus or penalty was found that would
/// explain numbers that are wrong, and it has an event.
pub fn is_out(filled: &FilledDraft) -> bool
    ensures { result ≡ is_out filled.now }
{
    let events = filled.answer.audit.entry.record.events.as_slice();
    filled.stopped.is_none() && is_written(&filled.answer) && !events.is_empty()
}

/// The record that a draft makes, if [`is_out`] says that it is to be written: the draft with the right numbers. Every other byte is as it was
/// given. Reading it gives the only record with the players and the events of the draft that the rules allow, if it is no longer than a record may be.
///
/// It fails only if memory runs out.
pub fn out_text(alloc: Global, filled: &FilledDraft) -> Result<Vec<u8>, AllocError>
    ensures text { IfOk result (λ out. out.items ≡ text_with filled.now.answer.audit.entry.record.events filled.now.answer.audit.text.items) }
    ensures again { IfOk result (λ out. IsRecordOfDraft filled.now out.items) }
{
    law_of_numbers();
    law_of_corrections();
    law_of_other_points();
    corrected_text(alloc, &filled.answer.audit)
}
