//! What is written of a draft.
ghost use Rattle.std.specs.Prelude.{◌≡◌, Some, None, IfOk};
ghost use Rattle.json_trees.specs.Trees.{view};
ghost use Rattle.draft_json.specs.Fills.{fill_object};
ghost use Rattle.reply_texts.specs.Bodies.{bytes_of, object_in, text_in};
ghost use Rattle.reply_texts.specs.Objects.{filled_of, filled_text, next_of};

use crate::audits::{amount_line, push_why_not};
use crate::bodies::Body;
use crate::cases::NO_GAME;
use draft_answers::{DraftFault, DraftNext, FilledDraft};
use draft_json::{bad_draft_tree, fill_tree, next_tree};
use draft_lines::{push_draft_fault, push_fill, push_next};
use game_case::Finding;
use gcg_unread::UnreadLine;
use json_trees::Tree;
use reply_answers::FilledSheet;
use reply_calls::Printed;
use std::alloc::{AllocError, Global};

/// The first fault of a draft, in words.
pub fn fault_words(alloc: Global, fault: &DraftFault) -> Result<Printed, AllocError>
    ensures { IfOk result (λ printed. printed.kept ≡ None) }
{
    let mut reported = Vec::new(alloc);
    push_draft_fault(alloc, &mut reported, fault)?;
    Ok(Printed::report(reported))
}

/// How many numbers were put into a draft, and the audit of the sheet that it makes; and why the record is not written, if it stands but is not.
fn lines_of(alloc: Global, draft: &FilledDraft) -> Result<Vec<u8>, AllocError> {
    if draft.answer.audit.entry.finding == Finding::NoGame {
        return Vec::from_slice(alloc, NO_GAME);
    }
    let amount = amount_line(alloc, &draft.answer.amount)?;
    let mut reported = Vec::new(alloc);
    push_fill(alloc, &mut reported, draft, amount.as_slice())?;
    push_why_not(&mut reported, &draft.answer)?;
    Ok(reported)
}

/// The text of the record that a draft makes, if there is one.
fn text_of(alloc: Global, kept: &Option<Vec<u8>>) -> Result<Option<Vec<u8>>, AllocError> {
    match kept {
        None => Ok(None),
        Some(text) => Ok(Some(Vec::from_slice(alloc, text.as_slice())?)),
    }
}

/// A draft that is filled, in words, with the record that it makes; or its first fault.
pub fn filled_words(alloc: Global, sheet: &FilledSheet) -> Result<Printed, AllocError> {
    match &sheet.found {
        Err(fault) => fault_words(alloc, fault),
        Ok(draft) => Ok(Printed {
            report: lines_of(alloc, draft)?,
            kept: text_of(alloc, &sheet.kept)?,
        }),
    }
}

/// A draft that is filled, for a program, with the text of the record that it makes, if there is one.
fn draft_body(
    alloc: Global,
    draft: &FilledDraft,
    kept: &Option<Vec<u8>>,
    unread: &[UnreadLine],
) -> Result<Body, AllocError>
    ensures has_object { IfOk result (λ body. object_in body ≡ Some (fill_object draft.now unread.now)) }
    ensures has_text { IfOk result (λ body. text_in body ≡ bytes_of kept.now) }
{
    let object = fill_tree(alloc, draft, unread)?;
    match kept {
        Some(text) => {
            let text = Vec::from_slice(alloc, text.as_slice())?;
            Ok(Body::Both(object, text))
        }
        None => Ok(Body::Object(object)),
    }
}

/// A draft that is filled, for a program, with the record that it makes; or its first fault.
pub fn filled_body(alloc: Global, sheet: &FilledSheet) -> Result<Body, AllocError>
    ensures has_object { IfOk result (λ body. object_in body ≡ Some (filled_of sheet.now.found sheet.now.unread.items)) }
    ensures has_text { IfOk result (λ body. text_in body ≡ filled_text sheet.now.found sheet.now.kept) }
{
    match &sheet.found {
        Ok(draft) => draft_body(alloc, draft, &sheet.kept, sheet.unread.as_slice()),
        Err(fault) => Ok(Body::Object(bad_draft_tree(alloc, fault)?)),
    }
}

/// What the next line of a draft is about, in words; or the first fault of the draft.
pub fn next_words(
    alloc: Global,
    found: &Result<DraftNext, DraftFault>,
) -> Result<Printed, AllocError> {
    match found {
        Err(fault) => fault_words(alloc, fault),
        Ok(draft) => {
            let mut reported = Vec::new(alloc);
            push_next(alloc, &mut reported, draft)?;
            Ok(Printed::report(reported))
        }
    }
}

/// What the next line of a draft is about, as a tree; or the first fault of the draft.
pub fn next_of(alloc: Global, found: &Result<DraftNext, DraftFault>) -> Result<Tree, AllocError>
    ensures { IfOk result (λ tree. view tree ≡ next_of found.now) }
{
    match found {
        Ok(draft) => next_tree(alloc, draft),
        Err(fault) => bad_draft_tree(alloc, fault),
    }
}
