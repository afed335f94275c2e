//! The audit of one sheet, by a word list and a lexicon that were read before.
ghost use Rattle.std.specs.Prelude.{◌≡◌, IfOk};
ghost use Rattle.io_devices.specs.Devices.{HasRoom};
ghost use Rattle.gcg_read.specs.Records.{most_bytes};
ghost use Rattle.game_corrections.specs.Corrections.{KeepPoints};
ghost use Rattle.lex_check.specs.Pairs as pairs;
ghost use Rattle.game_case.specs.Auditing.{IsAudit, IsAuditOf};
ghost use Rattle.engine_stages.specs.Stages.{IsRead};

use crate::entries::{Entry, find};
use engine_stages::{Decision, RunFault, read_text, record_from};
use game_corrections::{Standing, WrongNumber, standing_in};
use game_walk::audit;
use gcg_read::{MAX_BYTES, Record};
use gcg_write::law_of_other_points;
use io_devices::Input;
use lex_check::Checked;
use ref_tiles::Rules;
use std::alloc::{AllocError, Global};

/// What an audit says of a sheet.
#[derive(Drop)]
pub struct Audit {
    /// The bytes of the sheet.
    pub text: Vec<u8>,
    /// The numbers that are wrong: scores and sums in the order of the sheet, and last totals.
    pub wrong: Vec<WrongNumber>,
    /// The entry of the corrected record, or of a record that is corrected as far as the rules allow its events.
    pub entry: Entry,
    /// Who is ahead by the totals of this record.
    pub ahead: Standing,
    /// Who is ahead by the totals of the sheet.
    pub written: Standing,
}

/// The audit of a record that was read from a text.
fn audit_record(
    alloc: Global,
    rules: &Rules,
    pair: &Checked<'_>,
    game: Record,
    text: Vec<u8>,
) -> Result<Audit, AllocError>
    ensures text { IfOk result (λ a. a.text ≡ text) }
    ensures audit { IfOk result (IsAudit rules.now (pairs.list_in pair.now) game) }
    ensures points { IfOk result (λ a. KeepPoints game.events a.entry.record.events) }
{
    let written = standing_in(game.events.as_slice());
    let mut right = game;
    let audited = audit(alloc, rules, pair.list(), &mut right.events)?;
    let refused = audited.walk.refused_for_good();
    let found = find(alloc, rules, pair, &right, refused, &audited.walk)?;
    let entry = Entry {
        record: right,
        finding: found.finding,
        unlisted: found.unlisted,
    };
    let ahead = standing_in(entry.record.events.as_slice());
    Ok(Audit {
        text,
        wrong: audited.wrong,
        entry,
        ahead,
        written,
    })
}

/// The audit of the record of a text, which it keeps, or the verdict that it is not a record.
fn audit_from(
    alloc: Global,
    rules: &Rules,
    pair: &Checked<'_>,
    text: Vec<u8>,
) -> Result<Result<Audit, Decision>, AllocError>
    ensures { IfOk result (IsAuditOf rules.now (pairs.list_in pair.now) text.items) }
{
    law_of_other_points();
    let written = match record_from(alloc, &text)? {
        Ok(record) => record,
        Err(decision) => return Ok(Err(decision)),
    };
    let audit = audit_record(alloc, rules, pair, written, text)?;
    Ok(Ok(audit))
}

/// Reads the record of a game, corrects its scores and totals as far as the rules allow its events, and settles the result:
/// which numbers are wrong, and the entry of the corrected record, as [`open_case`](crate::open_case) gives it. Or the
/// verdict that names the first fault of the record.
///
/// The input is read to its end, or to one byte past 1 MiB and no further.
///
/// The events of the record are a correction of the written ones, or one up to the event at which it stops; those after it are as they were. The list
/// has exactly the wrong scores and sums, in the order of the sheet, and if there is a correction also the last totals that are wrong and whose sums
/// are not. A total that is right is never in it, nor one that only carries the mistake of another one on. It says who is ahead by the corrected
/// events, and by those that are written.
///
/// # Errors
///
/// `ReadFailed` comes only if the input failed; `NoMemory` if memory was refused.
pub fn audit_sheet<G: Input>(
    alloc: Global,
    rules: &Rules,
    pair: &Checked<'_>,
    game: &mut G,
) -> Result<Result<Audit, Decision>, RunFault>
    requires { HasRoom (G.device game.old) }
    ensures { IsRead most_bytes (G.device game.old) (G.device game.new) (IsAuditOf rules.now (pairs.list_in pair.now)) result }
{
    let text = read_text(alloc, game, MAX_BYTES)?;
    Ok(audit_from(alloc, rules, pair, text)?)
}
