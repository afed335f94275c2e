//! What is to be explained of one sheet, by a word list and a lexicon that were read before.
ghost use Rattle.std.specs.Prelude.{◌≡◌, IfOk};
ghost use Rattle.io_devices.specs.Devices.{HasRoom};
ghost use Rattle.gcg_read.specs.Records.{most_bytes};
ghost use Rattle.lex_check.specs.Pairs as pairs;
ghost use Rattle.game_case.specs.Explaining.{verdict_in, finding_line, case_verdict, case_line, IsCaseOf};
ghost use Rattle.engine_stages.specs.Stages.{IsRead};
ghost use Rattle.game_case.specs.WalkedEntries.{read_of, walk_of};

use crate::entries::{Entry, Walked, walked_from};
use crate::findings::Finding;
use engine_stages::{
    RunFault, Verdict, bad_record_line, illegal_line, legal_line, read_text, unsettled_line,
};
use game_walk::Walk;
use gcg_read::{MAX_BYTES, ReadFault};
use io_devices::Input;
use lex_check::Checked;
use ref_tiles::Rules;
use std::alloc::{AllocError, Global};

/// A sheet that is to be explained.
#[derive(Drop)]
pub struct Case {
    /// The bytes of the record.
    pub text: Vec<u8>,
    /// The entry of the record that they mean, or their first fault.
    pub read: Result<Entry, ReadFault>,
    /// The walk over the events of the record, if they mean one.
    pub walk: Option<Walk>,
}

/// The case of a text.
fn case_of(text: Vec<u8>, walked: Result<Walked, ReadFault>) -> Case
    ensures text { result.text ≡ text }
    ensures read { result.read ≡ read_of walked }
    ensures walk { result.walk ≡ walk_of walked }
{
    match walked {
        Ok(walked) => Case {
            text,
            read: Ok(walked.entry),
            walk: Some(walked.walk),
        },
        Err(fault) => Case {
            text,
            read: Err(fault),
            walk: None,
        },
    }
}

/// The settled verdict of what is found of a record. A record without an event is a legal game that is not finished.
pub fn verdict_in(finding: &Finding) -> Verdict
    ensures { result ≡ verdict_in finding.now }
{
    match finding {
        Finding::NoGame => Verdict::Legal { complete: false },
        Finding::Legal { complete } => Verdict::Legal {
            complete: *complete,
        },
        Finding::Illegal { line, fault } => Verdict::Illegal {
            line: *line,
            fault: *fault,
        },
        Finding::Unsettled => Verdict::Unsettled,
    }
}

/// The line of the settled verdict of what is found of a record: the first line of the report that
/// `run_settled` of `engine` writes.
pub fn finding_line(alloc: Global, finding: &Finding) -> Result<Vec<u8>, AllocError>
    ensures { IfOk result (λ text. text.items ≡ finding_line finding.now) }
{
    match finding {
        Finding::NoGame => Vec::from_slice(alloc, legal_line(false)),
        Finding::Legal { complete } => Vec::from_slice(alloc, legal_line(*complete)),
        Finding::Illegal { line, fault } => illegal_line(alloc, *line, fault),
        Finding::Unsettled => unsettled_line(alloc),
    }
}

/// The verdict on a case: the settled one on its record, or that the text is not a record.
pub fn case_verdict(case: &Case) -> Verdict
    ensures { result ≡ case_verdict case.now.read }
{
    match &case.read {
        Ok(entry) => verdict_in(&entry.finding),
        Err(_) => Verdict::BadRecord,
    }
}

/// The line that gives the verdict on a case.
pub fn case_line(alloc: Global, case: &Case) -> Result<Vec<u8>, AllocError>
    ensures { IfOk result (λ text. text.items ≡ case_line case.now.read) }
{
    match &case.read {
        Ok(entry) => finding_line(alloc, &entry.finding),
        Err(fault) => bad_record_line(alloc, fault),
    }
}

/// Reads the record of a game, keeps its bytes, and settles it: what `run_settled` of `engine` would find of it, without its report. The case has all
/// that is needed to explain the verdict, or one of the lines.
///
/// The input is read to its end, or to one byte past 1 MiB and no further.
///
/// The finding is that there is no game only for a record without an event. Best plays are not searched for.
///
/// # Errors
///
/// `ReadFailed` comes only if the input failed; `NoMemory` if memory was refused.
pub fn open_case<G: Input>(
    alloc: Global,
    rules: &Rules,
    pair: &Checked<'_>,
    game: &mut G,
) -> Result<Case, RunFault>
    requires { HasRoom (G.device game.old) }
    ensures { IsRead most_bytes (G.device game.old) (G.device game.new) (IsCaseOf rules.now (pairs.list_in pair.now)) result }
{
    let text = read_text(alloc, game, MAX_BYTES)?;
    let walked = walked_from(alloc, rules, pair, &text)?;
    Ok(case_of(text, walked))
}
