//! What explains a case.
ghost use Rattle.std.specs.Prelude.{◌≡◌, ◌++◌, OnOk};
ghost use Rattle.explain_answers.specs.Openings.{opening, GoesOn};

use crate::boards::push_shown;
use crate::facts::push_facts;
use explain_answers::{Explanation, Picture, push_opening};
use explain_parts::say;
use explain_records::{
    push_fault_sentences, push_other_faults, push_time_racks, push_unread_lines,
};
use game_case::Case;
use gcg_read::{Players, ReadFault};
use std::alloc::{AllocError, Global};

/// Appends what explains the verdict on a record, or one of its lines: the verdict line; the line as it is in the file; which lines are not read
/// although they look like events; what is wrong with the line; the words of a play with what each square adds; and the board before it. The
/// explanation is that of the case and the line; there is none if the text is not a record, or no event is on the line or after it.
///
/// It fails only if memory runs out.
#[tactic(auto, using(crate::proofs::GoingOn::goes_on))]
pub fn push_explanation(
    alloc: Global,
    text: &mut Vec<u8>,
    case: &Case,
    line: Option<u32>,
    explanation: Option<&Explanation>,
) -> Result<(), AllocError>
    ensures { OnOk result (GoesOn (opening case.now.text.items case.now.read line) text.old.items text.new.items) }
{
    let sentences = sentences_of(alloc, case, explanation)?;
    push_opening(alloc, text, case, line)?;
    push_all(text, sentences.as_slice())
}

/// Appends all of a text.
fn push_all(text: &mut Vec<u8>, more: &[u8]) -> Result<(), AllocError>
    ensures { OnOk result (text.new.items ≡ text.old.items ++ more.now) }
{
    text.extend_from_slice(more)
}

/// What an explanation says after its opening.
fn sentences_of(
    alloc: Global,
    case: &Case,
    explanation: Option<&Explanation>,
) -> Result<Vec<u8>, AllocError> {
    let mut text = Vec::new(alloc);
    let bytes = case.text.as_slice();
    match &case.read {
        Ok(entry) => {
            push_unread_lines(alloc, &mut text, bytes)?;
            push_time_racks(&mut text, bytes)?;
            if let Some(reported) = explanation {
                push_reported(&mut text, &entry.record.players, reported)?;
            }
        }
        Err(fault) => push_faults(alloc, &mut text, bytes, *fault)?,
    }
    Ok(text)
}

/// Appends why a text is not a record, what is wrong with its other lines, and which lines are not read although they look like events.
fn push_faults(
    alloc: Global,
    text: &mut Vec<u8>,
    bytes: &[u8],
    fault: ReadFault,
) -> Result<(), AllocError> {
    push_fault_sentences(alloc, text, bytes, fault)?;
    push_other_faults(alloc, text, bytes, fault)?;
    push_unread_lines(alloc, text, bytes)
}

/// Appends an explanation after its opening: the facts, and what is shown with them.
fn push_reported(
    text: &mut Vec<u8>,
    players: &Players,
    reported: &Explanation,
) -> Result<(), AllocError> {
    push_facts(text, players, reported)?;
    let Some(line) = reported.line else {
        return Ok(());
    };
    match &reported.picture {
        None => Ok(()),
        Some(Picture::Unknown { line }) =>
            say!(text; "The board before this line is not known, since the play on line ", *line, " cannot be laid.\n"),
        Some(Picture::Shown(shown)) => push_shown(text, line, shown),
    }
}

/// Appends the sentences of an explanation, if there is one, with the names of these players, and nothing that is shown with them.
///
/// It fails only if memory runs out.
pub fn push_reason(
    text: &mut Vec<u8>,
    players: &Players,
    explanation: Option<&Explanation>,
) -> Result<(), AllocError> {
    match explanation {
        Some(explanation) => push_facts(text, players, explanation),
        None => Ok(()),
    }
}
