//! An answer to an audit, of which only what is before a line is reported.
ghost use Rattle.std.specs.Prelude.{◌≡◌, IfOk};
ghost use Rattle.std.specs.List.{filter};
ghost use Rattle.draft_answers.specs.Filled.{is_before, is_reported_before, IsCutAudit, IsCutAnswer};

use game_case::Audit;
use game_corrections::WrongNumber;
use sheet_audit::{AuditAnswer, ReportedNumber};
use std::alloc::{AllocError, Global};

/// Whether a wrong number is on a line before this one.
fn is_before(line: u32, number: &WrongNumber) -> bool
    ensures { result ≡ is_before line number.now }
{
    match number {
        WrongNumber::Score { line: own, .. } => *own < line,
        WrongNumber::Sum { line: own, .. } => *own < line,
        WrongNumber::Total { .. } => false,
    }
}

/// The same of one that is reported with its event.
fn is_reported_before(line: u32, number: &ReportedNumber) -> bool
    ensures { result ≡ is_reported_before line number.now }
{
    match number {
        ReportedNumber::Score { line: own, .. } => *own < line,
        ReportedNumber::Sum { line: own, .. } => *own < line,
        ReportedNumber::Total { .. } => false,
    }
}

/// The wrong numbers on lines before one.
fn wrong_before(
    alloc: Global,
    line: u32,
    numbers: &[WrongNumber],
) -> Result<Vec<WrongNumber>, AllocError>
    ensures { IfOk result (λ kept. kept.items ≡ filter (is_before line) numbers.now) }
{
    let mut kept = Vec::new(alloc);
    for number in numbers {
        if is_before(line, number) {
            kept.push(*number)?;
        }
    }
    Ok(kept)
}

/// Those that are reported with their events.
fn reported_before(
    alloc: Global,
    line: u32,
    numbers: &[ReportedNumber],
) -> Result<Vec<ReportedNumber>, AllocError>
    ensures { IfOk result (λ kept. kept.items ≡ filter (is_reported_before line) numbers.now) }
{
    let mut kept = Vec::new(alloc);
    for number in numbers {
        if is_reported_before(line, number) {
            kept.push(*number)?;
        }
    }
    Ok(kept)
}

/// An audit, of which only the wrong numbers before a line are reported.
fn audit_before(alloc: Global, line: u32, audit: Audit) -> Result<Audit, AllocError>
    ensures { IfOk result (IsCutAudit line audit) }
{
    let wrong = wrong_before(alloc, line, audit.wrong.as_slice())?;
    Ok(Audit {
        text: audit.text,
        wrong,
        entry: audit.entry,
        ahead: audit.ahead,
        written: audit.written,
    })
}

/// An answer to an audit, of which only what is before a line is reported.
pub(crate) fn answer_before(
    alloc: Global,
    line: u32,
    answer: AuditAnswer,
) -> Result<AuditAnswer, AllocError>
    ensures { IfOk result (IsCutAnswer line answer) }
{
    let numbers = reported_before(alloc, line, answer.numbers.as_slice())?;
    let audit = audit_before(alloc, line, answer.audit)?;
    Ok(AuditAnswer {
        audit,
        numbers,
        amount: None,
    })
}
