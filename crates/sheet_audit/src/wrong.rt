//! The audit of a sheet with a wrong number, for what is said of the sheet as a whole.
ghost use Rattle.std.specs.Prelude.{◌++◌, ◌≡◌, ◌≤◌, ℕ, List, IfOk, OnOk, length};
ghost use Rattle.gcg_read.specs.Records.{most_bytes};
ghost use Rattle.lex_check.specs.Pairs.{list_in};
ghost use Rattle.game_case.specs.Explaining.{IsCaseOf};
ghost use Rattle.sheet_audit.specs.Lines.{lead_text};
ghost use Rattle.game_case.specs.Auditing.{IsAuditOf};
ghost use Rattle.sheet_audit.specs.Wrong.{if_any, if_wrong, IsAuditOfWrong, IsWrongAuditOf};

use crate::leads::push_lead;
use engine_stages::Decision;
use game_case::{Audit, Case, Finding, audit_sheet};
use io_devices::FromRead;
use lex_check::Checked;
use ref_tiles::Rules;
use std::alloc::{AllocError, Global};

/// The audit of bytes, or the verdict that they are not a record.
fn audited(
    alloc: Global,
    rules: &Rules,
    pair: &Checked<'_>,
    sheet: &[u8],
) -> Result<Result<Audit, Decision>, AllocError>
    ensures { IfOk result (λ found. length sheet.now ≤ most_bytes → IsAuditOf rules.now (list_in pair.now) sheet.now found) }
{
    let mut input = FromRead::new(sheet);
    match audit_sheet(alloc, rules, pair, &mut input) {
        Ok(audit) => Ok(audit),
        Err(_) => Err(AllocError),
    }
}

/// An audit, if a number is wrong.
fn if_any(audit: Audit) -> Option<Audit>
    ensures { result ≡ if_any audit }
{
    if audit.wrong.as_slice().is_empty() {
        None
    } else {
        Some(audit)
    }
}

/// The audit of a record, if a number of it is wrong.
fn if_wrong(audited: Result<Audit, Decision>) -> Option<Audit>
    ensures { result ≡ if_wrong audited }
{
    match audited {
        Ok(audit) => if_any(audit),
        Err(_) => None,
    }
}

/// The audit of bytes, if they are a record and a number of it is wrong.
#[tactic(auto, using(crate::proofs::WrongAudits::if_of_sheet))]
fn audit_of(
    alloc: Global,
    rules: &Rules,
    pair: &Checked<'_>,
    sheet: &[u8],
) -> Result<Option<Audit>, AllocError>
    ensures { IfOk result (λ found. length sheet.now ≤ most_bytes → IsAuditOfWrong rules.now (list_in pair.now) sheet.now found) }
{
    let found = audited(alloc, rules, pair, sheet)?;
    Ok(if_wrong(found))
}

/// The audit of the sheet of a case, if a number of it is wrong; then the case is illegal.
///
/// It fails only if memory runs out.
pub fn audit_of_wrong(
    alloc: Global,
    rules: &Rules,
    pair: &Checked<'_>,
    case: &Case,
) -> Result<Option<Audit>, AllocError>
    ensures { IfOk result (λ found. (text : List ℕ) → IsCaseOf rules.now (list_in pair.now) text case.now
        → IsWrongAuditOf rules.now (list_in pair.now) text case.now.read found) }
{
    let Ok(entry) = &case.read else {
        return Ok(None);
    };
    match &entry.finding {
        Finding::Illegal { .. } => {
            let audit = audit_of(alloc, rules, pair, case.text.as_slice())?;
            Ok(audit)
        }
        Finding::NoGame | Finding::Legal { .. } | Finding::Unsettled => Ok(None),
    }
}

/// Appends the last line of an audit: who is ahead by the right numbers, and by the sheet if that is not the same; nothing if the corrected record is
/// illegal.
///
/// It fails only if memory runs out.
pub fn push_last_line(text: &mut Vec<u8>, audit: &Audit) -> Result<(), AllocError>
    ensures { OnOk result (text.new.items ≡ text.old.items ++ lead_text audit.now.entry.finding audit.now.entry.record.players audit.now.ahead audit.now.written) }
{
    let entry = &audit.entry;
    push_lead(
        text,
        &entry.finding,
        &entry.record.players,
        &audit.ahead,
        &audit.written,
    )
}
