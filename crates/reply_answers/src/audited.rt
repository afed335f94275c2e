//! The audit of a sheet, whether its correction is requested, and its lines that are not read.
ghost use Rattle.std.specs.Prelude.{◌≡◌, IfOk};
ghost use Rattle.lex_check.specs.Pairs.{list_in};
ghost use Rattle.reply_answers.specs.Audited.{IsAuditedSheet};
ghost use Rattle.reply_answers.specs.Given.{FailsForMemoryAlone};

use crate::games::audited;
use engine_stages::{Decision, RunFault};
use gcg_unread::{UnreadLine, unread_lines};
use lex_check::Checked;
use ref_tiles::Rules;
use sheet_audit::AuditAnswer;
use std::alloc::Global;

/// The audit of a sheet, and whether its correction is requested.
#[derive(Drop)]
pub struct AuditedSheet {
    /// The audit, or that the text is not a record.
    pub found: Result<AuditAnswer, Decision>,
    /// Whether the corrected record is requested.
    pub corrected: bool,
    /// The lines of the sheet that are not read although they look like events.
    pub unread: Vec<UnreadLine>,
}

/// The audit of a sheet: what `audit` finds.
pub fn audited_sheet(
    alloc: Global,
    rules: &Rules,
    pair: &Checked<'_>,
    game: &[u8],
    corrected: bool,
) -> Result<AuditedSheet, RunFault>
    ensures audited { IfOk result (IsAuditedSheet rules.now (list_in pair.now) game.now corrected) }
    ensures memory { FailsForMemoryAlone result }
{
    let found = audited(alloc, rules, pair, game)?;
    let unread = unread_lines(alloc, game)?;
    Ok(AuditedSheet {
        found,
        corrected,
        unread,
    })
}
