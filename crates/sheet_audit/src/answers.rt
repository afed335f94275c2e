//! The answer to an audit of one sheet, as a value.
ghost use Rattle.std.specs.Prelude.{◌≡◌, IfOk};
ghost use Rattle.io_devices.specs.Devices.{HasRoom};
ghost use Rattle.gcg_read.specs.Records.{most_bytes};
ghost use Rattle.lex_check.specs.Pairs.{list_in};
ghost use Rattle.engine_stages.specs.Stages.{IsRead};
ghost use Rattle.sheet_audit.specs.Answers.{IsAuditAnswerOf};
ghost use Rattle.sheet_audit.specs.Numbers.{reported_numbers};
ghost use Rattle.repair_answers.specs.Amounts.{IsAmountOnSheet};

use crate::reported::{ReportedNumber, reported_numbers};
use engine_stages::{Decision, RunFault};
use game_case::{Audit, audit_sheet};
use gcg_read::law_of_lines;
use io_devices::Input;
use lex_check::Checked;
use ref_tiles::Rules;
use repair_answers::{SheetAmount, amount_on_sheet};
use std::alloc::{AllocError, Global};

/// The answer to an audit of one sheet.
#[derive(Drop)]
pub struct AuditAnswer {
    /// The audit: the sheet, the corrected record and its verdict.
    pub audit: Audit,
    /// The numbers that are wrong, each with its event: scores and sums in the order of the sheet, and last totals.
    pub numbers: Vec<ReportedNumber>,
    /// A bonus or a penalty that would explain them, if one was found.
    pub amount: Option<SheetAmount>,
}

/// The answer of an audit.
fn answer_of(
    alloc: Global,
    rules: &Rules,
    pair: &Checked<'_>,
    audit: Audit,
) -> Result<AuditAnswer, AllocError>
    ensures audit { IfOk result (λ a. a.audit ≡ audit) }
    ensures numbers { IfOk result (λ a. a.numbers.items ≡ reported_numbers audit) }
    ensures amount { IfOk result (λ a. IsAmountOnSheet rules.now (list_in pair.now) audit.text.items a.amount) }
{
    let numbers = reported_numbers(alloc, &audit)?;
    let text = audit.text.as_slice();
    let amount = amount_on_sheet(alloc, rules, pair, text, audit.wrong.as_slice())?;
    Ok(AuditAnswer {
        audit,
        numbers,
        amount,
    })
}

/// Reads the record of a game and audits it, as [`audit_sheet`] does: which numbers are wrong, each with its event and with what is right, and the
/// verdict of the corrected record. Or the verdict that names the first fault of the record.
///
/// The input is read to its end, or to one byte past 1 MiB and no further.
///
/// A bonus or a penalty that it gives is the first repair of the record and costs less than correcting only the numbers; that one is found is tested,
/// not promised.
///
/// # Errors
///
/// `ReadFailed` comes only if the input failed; `NoMemory` if memory was refused.
pub fn answer_audit<G: Input>(
    alloc: Global,
    rules: &Rules,
    pair: &Checked<'_>,
    game: &mut G,
) -> Result<Result<AuditAnswer, Decision>, RunFault>
    requires { HasRoom (G.device game.old) }
    ensures { IsRead most_bytes (G.device game.old) (G.device game.new) (IsAuditAnswerOf rules.now (list_in pair.now)) result }
{
    law_of_lines();
    match audit_sheet(alloc, rules, pair, game)? {
        Ok(audit) => Ok(Ok(answer_of(alloc, rules, pair, audit)?)),
        Err(decision) => Ok(Err(decision)),
    }
}
