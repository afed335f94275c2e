//! What is written of an audit.
ghost use Rattle.std.specs.Prelude.{◌≡◌, ◌&&◌, is_some, Some, IfOk, IfSome};
ghost use Rattle.sheet_audit.specs.Standing.{is_written};
ghost use Rattle.sheet_json.specs.Audits.{audit_object};
ghost use Rattle.reply_texts.specs.Bodies.{object_in, text_in};
ghost use Rattle.reply_texts.specs.Kept.{has_event, is_corrected, IsCorrectedText, IsCorrectedOf};
ghost use Rattle.reply_texts.specs.Objects.{audited_of, IsAuditedOf, IsAuditedText};

use crate::bodies::Body;
use crate::cases::{NO_GAME, is_with_event};
use gcg_unread::UnreadLine;
use json_base::decision_tree;
use repair_answers::SheetAmount;
use repair_lines::push_amount;
use reply_answers::AuditedSheet;
use reply_calls::Printed;
use sheet_audit::{AuditAnswer, corrected_text, is_corrected, is_written, push_audit};
use sheet_json::audit_tree;
use std::alloc::{AllocError, Global};

/// Why the corrected record is not written although it stands.
const NOT_CORRECTED: &[u8] =
    b"not written: either the bonus or penalty after Or: is missing, or the number is wrong\n";

/// The line of a bonus or a penalty that would explain the numbers of a sheet, if there is one.
pub(crate) fn amount_line(
    alloc: Global,
    amount: &Option<SheetAmount>,
) -> Result<Vec<u8>, AllocError> {
    let mut line = Vec::new(alloc);
    if let Some(amount) = amount {
        push_amount(&mut line, &amount.record, Some(&amount.repair))?;
    }
    Ok(line)
}

/// Appends why the corrected record is not written, if it stands but is not.
pub(crate) fn push_why_not(text: &mut Vec<u8>, answer: &AuditAnswer) -> Result<(), AllocError> {
    if is_corrected(&answer.audit) && !is_written(answer) {
        text.extend_from_slice(NOT_CORRECTED)?;
    }
    Ok(())
}

/// The lines of an audit; if the corrected record is requested and stands but is not written, also why.
fn lines_of(alloc: Global, answer: &AuditAnswer, corrected: bool) -> Result<Vec<u8>, AllocError> {
    let amount = amount_line(alloc, &answer.amount)?;
    let mut reported = Vec::new(alloc);
    push_audit(alloc, &mut reported, &answer.audit, amount.as_slice())?;
    if corrected {
        push_why_not(&mut reported, answer)?;
    }
    Ok(reported)
}

/// The corrected record of an audit, if it is requested and is to be written.
pub fn corrected_of(
    alloc: Global,
    answer: &AuditAnswer,
    corrected: bool,
) -> Result<Option<Vec<u8>>, AllocError>
    ensures asked { IfOk result (λ kept. is_some kept ≡ (corrected && is_written answer.now)) }
    ensures text { IfOk result (λ kept. IfSome kept (λ text. IsCorrectedText answer.now text.items)) }
{
    if corrected && is_written(answer) {
        let text = corrected_text(alloc, &answer.audit)?;
        return Ok(Some(text));
    }
    Ok(None)
}

/// An audit in words: each wrong number, what would explain them, the verdict on the corrected record, and who is ahead.
fn answer_words(alloc: Global, answer: &AuditAnswer, corrected: bool) -> Result<Printed, AllocError>
    ensures asked { IfOk result (λ printed. is_some printed.kept ≡ (has_event answer.now.audit.entry.finding && (corrected && is_written answer.now))) }
    ensures text { IfOk result (λ printed. IfSome printed.kept (λ text. IsCorrectedText answer.now text.items)) }
{
    if !is_with_event(&answer.audit.entry.finding) {
        return Printed::of_bytes(alloc, NO_GAME);
    }
    let report = lines_of(alloc, answer, corrected)?;
    let kept = corrected_of(alloc, answer, corrected)?;
    Ok(Printed { report, kept })
}

/// An audit in words, or that the text is not a record.
pub fn audit_words(alloc: Global, sheet: &AuditedSheet) -> Result<Printed, AllocError>
    ensures asked { IfOk result (λ printed. is_some printed.kept ≡ is_corrected sheet.now) }
    ensures text { IfOk result (λ printed. IfSome printed.kept (λ text. IsCorrectedOf sheet.now.found text.items)) }
{
    match &sheet.found {
        Ok(answer) => answer_words(alloc, answer, sheet.corrected),
        Err(decision) => Printed::of_bytes(alloc, decision.report.as_slice()),
    }
}

/// An audit for a program, with its corrected record if that is requested and is to be written.
fn answer_body(
    alloc: Global,
    answer: &AuditAnswer,
    corrected: bool,
    unread: &[UnreadLine],
) -> Result<Body, AllocError>
    ensures has_object { IfOk result (λ body. object_in body ≡ Some (audit_object answer.now unread.now)) }
    ensures has_text { IfOk result (λ body. IsAuditedText answer.now corrected (text_in body)) }
{
    let object = audit_tree(alloc, answer, unread)?;
    match corrected_of(alloc, answer, corrected)? {
        Some(text) => Ok(Body::Both(object, text)),
        None => Ok(Body::Object(object)),
    }
}

/// An audit for a program, or that the text is not a record.
pub fn audited_body(alloc: Global, sheet: &AuditedSheet) -> Result<Body, AllocError>
    ensures has_object { IfOk result (λ body. object_in body ≡ Some (audited_of sheet.now.found sheet.now.unread.items)) }
    ensures has_text { IfOk result (λ body. IsAuditedOf sheet.now.found sheet.now.corrected (text_in body)) }
{
    match &sheet.found {
        Ok(answer) => answer_body(alloc, answer, sheet.corrected, sheet.unread.as_slice()),
        Err(decision) => Ok(Body::Object(decision_tree(alloc, decision)?)),
    }
}
