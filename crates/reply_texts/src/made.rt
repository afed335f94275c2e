//! The texts that are made of a case: its page, and its sheet with notes.
ghost use Rattle.std.specs.Prelude.{◌≡◌, is_some, IfOk};
ghost use Rattle.std.specs.Option.{option_copied};
ghost use Rattle.json_trees.specs.Trees.{view};
ghost use Rattle.gcg_unread.specs.Lines.{unread_of};
ghost use Rattle.reply_texts.specs.Cases.{case_object};
ghost use Rattle.reply_texts.specs.Bodies.{object_in, text_in};
ghost use Rattle.reply_texts.specs.Objects.{annotated_object, has_sheet, paged_object, reported_of, IsAnnotatedText};

use crate::bodies::Body;
use crate::case_objects::case_tree;
use crate::cases::{NO_GAME, has_event, has_no_event};
use explain_answers::Explanation;
use game_case::{Case, case_line};
use gcg_unread::unread_lines;
use json_trees::Tree;
use page_answers::{PageContents, PagedCase};
use page_words::page_text;
use repair_answers::Likely;
use reply_calls::Printed;
use sheet_notes::{AnnotatedSheet, annotated_text};
use std::alloc::{AllocError, Global};

/// The page of a case.
fn page_of(alloc: Global, paged: &PagedCase) -> Result<Vec<u8>, AllocError> {
    let page = page_text(alloc, paged, None)?;
    Vec::from_slice(alloc, page.as_slice())
}

/// The verdict line of a case whose text was made; nothing is made of a text that is not a record, or of a record without an event.
fn line_of(alloc: Global, case: &Case) -> Result<Vec<u8>, AllocError> {
    if has_no_event(case) {
        return Vec::from_slice(alloc, NO_GAME);
    }
    case_line(alloc, case)
}

/// The page of a case, in words: the verdict line, and the page to be kept.
pub fn paged_words(alloc: Global, paged: &PagedCase) -> Result<Printed, AllocError> {
    let report = line_of(alloc, &paged.case)?;
    if !has_event(&paged.case) {
        return Ok(Printed::report(report));
    }
    let page = page_of(alloc, paged)?;
    Ok(Printed {
        report,
        kept: Some(page),
    })
}

/// A sheet with notes, in words: the verdict line, and the sheet to be kept.
pub fn annotated_words(alloc: Global, sheet: &AnnotatedSheet) -> Result<Printed, AllocError> {
    let report = line_of(alloc, &sheet.case)?;
    if !has_event(&sheet.case) {
        return Ok(Printed::report(report));
    }
    let text = annotated_text(alloc, sheet)?;
    Ok(Printed {
        report,
        kept: Some(text),
    })
}

/// What explains the verdict on a case with a page, if the text is a record.
fn reported_of(contents: &Option<PageContents>) -> Option<&Explanation>
    ensures { option_copied result ≡ reported_of contents.now }
{
    match contents {
        Some(contents) => contents.explanation.as_ref(),
        None => None,
    }
}

/// What `explain` says of a case of which nothing is made.
fn explained_tree(
    alloc: Global,
    case: &Case,
    reported: Option<&Explanation>,
    likely: Option<&Likely>,
) -> Result<Tree, AllocError>
    ensures { IfOk result (λ tree. view tree
        ≡ case_object case.now (option_copied reported.entry) (option_copied likely.entry) (unread_of case.now.text.items)) }
{
    let unread = unread_lines(alloc, case.text.as_slice())?;
    case_tree(alloc, case, reported, likely, unread.as_slice())
}

/// The page of a case, for a program; if there is none, what `explain` says of the case.
pub fn paged_body(alloc: Global, paged: &PagedCase) -> Result<Body, AllocError>
    ensures has_object { IfOk result (λ body. object_in body ≡ paged_object paged.now) }
    ensures has_text { IfOk result (λ body. is_some (text_in body) ≡ has_sheet paged.now.case.read) }
{
    if has_event(&paged.case) {
        return Ok(Body::Text(page_of(alloc, paged)?));
    }
    let reported = reported_of(&paged.contents);
    let object = explained_tree(alloc, &paged.case, reported, paged.likely.as_ref())?;
    Ok(Body::Object(object))
}

/// A sheet with notes, for a program; if there is none, what `explain` says of the case.
pub fn annotated_body(alloc: Global, sheet: &AnnotatedSheet) -> Result<Body, AllocError>
    ensures has_object { IfOk result (λ body. object_in body ≡ annotated_object sheet.now) }
    ensures has_text { IfOk result (λ body. IsAnnotatedText sheet.now (text_in body)) }
{
    if has_event(&sheet.case) {
        return Ok(Body::Text(annotated_text(alloc, sheet)?));
    }
    let object = explained_tree(alloc, &sheet.case, None, None)?;
    Ok(Body::Object(object))
}
