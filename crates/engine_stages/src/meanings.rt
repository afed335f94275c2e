//! The stages that read an input and give what it means: a word list, a rules text, a record.
ghost use Rattle.std.specs.Prelude.{◌≡◌, IfOk};
ghost use Rattle.io_devices.specs.Devices.{HasRoom};
ghost use Rattle.ref_tiles.specs.RulesTexts.{most_text_bytes};
ghost use Rattle.gcg_read.specs.Records.{most_bytes, record_of};
ghost use Rattle.lex_list.specs.Lists.{most_list_bytes};
ghost use Rattle.engine_stages.specs.declared.verdicts.Verdict.TheVariants as verdict;
ghost use Rattle.engine_stages.specs.Reports as reports;
ghost use Rattle.engine_stages.specs.Stages.{IsRead, IsListOf, AreRulesOf, IsRecordOf};
ghost use Rattle.engine_stages.specs.Reporting.{IsReported};

use crate::decisions::Decision;
use crate::faults::RunFault;
use crate::input_faults::InputFault;
use crate::transfers::read_text;
use gcg_read::{ReadFault, Record, Why};
use io_devices::Input;
use lex_list::{ListFault, ListWhy, WordList};
use ref_tiles::{MAX_RULES_BYTES, Rules, RulesFault};
use std::alloc::{AllocError, Global};

/// The verdict that names a fault of a word list.
fn bad_list(alloc: Global, fault: &ListFault) -> Result<Decision, AllocError>
    ensures { IfOk result (λ d. IsReported verdict.BadList (reports.bad_list_line fault.now) d.verdict d.report.items) }
{
    Decision::refused(alloc, InputFault::Words(*fault))
}

/// The word list of a text, or the verdict that it is not one. There is a list exactly if the text means one; else the verdict names the line of its
/// first fault.
#[tactic(auto, using(crate::proofs::Readings::no_list))]
pub fn list_from(alloc: Global, text: &[u8]) -> Result<Result<WordList, Decision>, AllocError>
    ensures { IfOk result (λ read. IsListOf text.now read) }
{
    let fault = match WordList::read(alloc, text) {
        Ok(list) => return Ok(Ok(list)),
        Err(fault) => fault,
    };
    if fault.why == ListWhy::NoMemory {
        return Err(AllocError);
    }
    let decision = bad_list(alloc, &fault)?;
    Ok(Err(decision))
}

/// Reads a word list to its end, or to one byte past 16 MiB and no further: the list, or the verdict that names its first
/// fault.
///
/// # Errors
///
/// If the input failed or memory was refused. `ReadFailed` comes only if the count of failures of that input rose, and `NoMemory` only if it did not.
pub fn read_list<W: Input>(
    alloc: Global,
    words: &mut W,
) -> Result<Result<WordList, Decision>, RunFault>
    requires { HasRoom (W.device words.old) }
    ensures { IsRead most_list_bytes (W.device words.old) (W.device words.new) IsListOf result }
{
    let text = read_text(alloc, words, lex_list::MAX_BYTES)?;
    Ok(list_from(alloc, &text)?)
}

/// The verdict that names a fault of a rules text.
fn bad_rules(alloc: Global, fault: &RulesFault) -> Result<Decision, AllocError>
    ensures { IfOk result (λ d. IsReported verdict.BadRules (reports.bad_rules_line fault.now) d.verdict d.report.items) }
{
    Decision::refused(alloc, InputFault::Rules(*fault))
}

/// The rules of a text, or the verdict that it states none. There are rules exactly if the text means some; else the verdict names the line of its
/// first fault.
pub fn rules_from(alloc: Global, text: &[u8]) -> Result<Result<Rules, Decision>, AllocError>
    ensures { IfOk result (λ read. AreRulesOf text.now read) }
{
    match Rules::read(text) {
        Ok(rules) => Ok(Ok(rules)),
        Err(fault) => {
            let decision = bad_rules(alloc, &fault)?;
            Ok(Err(decision))
        }
    }
}

/// Reads a rules text to its end, or to one byte past 65,536 bytes and no further: the rules, or the verdict that names its
/// first fault.
///
/// # Errors
///
/// If the input failed or memory was refused. `ReadFailed` comes only if the count of failures of that input rose, and `NoMemory` only if it did not.
pub fn read_rules<R: Input>(
    alloc: Global,
    rules_text: &mut R,
) -> Result<Result<Rules, Decision>, RunFault>
    requires { HasRoom (R.device rules_text.old) }
    ensures { IsRead most_text_bytes (R.device rules_text.old) (R.device rules_text.new) AreRulesOf result }
{
    let text = read_text(alloc, rules_text, MAX_RULES_BYTES)?;
    Ok(rules_from(alloc, &text)?)
}

/// The verdict that names a fault of a record.
fn bad_record(alloc: Global, fault: &ReadFault) -> Result<Decision, AllocError>
    ensures { IfOk result (λ d. IsReported verdict.BadRecord (reports.bad_record_line fault.now) d.verdict d.report.items) }
{
    Decision::refused(alloc, InputFault::Game(*fault))
}

/// The record of a text, or its first fault. There is a record exactly if the text means one.
#[tactic(auto, using(crate::proofs::Readings::no_game))]
pub fn game_from(alloc: Global, text: &[u8]) -> Result<Result<Record, ReadFault>, AllocError>
    ensures { IfOk result (λ read. read ≡ record_of text.now) }
{
    let fault = match gcg_read::read(alloc, text) {
        Ok(game) => return Ok(Ok(game)),
        Err(fault) => fault,
    };
    if fault.why == Why::NoMemory {
        return Err(AllocError);
    }
    Ok(Err(fault))
}

/// The record of a text, or the verdict that it is not one. There is a record exactly if the text means one; else the verdict names the line of its
/// first fault.
#[tactic(auto, using(crate::proofs::Readings::no_record))]
pub fn record_from(alloc: Global, text: &[u8]) -> Result<Result<Record, Decision>, AllocError>
    ensures { IfOk result (λ read. IsRecordOf text.now read) }
{
    let fault = match game_from(alloc, text)? {
        Ok(game) => return Ok(Ok(game)),
        Err(fault) => fault,
    };
    let decision = bad_record(alloc, &fault)?;
    Ok(Err(decision))
}

/// Reads a record to its end, or to one byte past 1 MiB and no further: the record, or the verdict that names its first
/// fault.
///
/// # Errors
///
/// If the input failed or memory was refused. `ReadFailed` comes only if the count of failures of that input rose, and `NoMemory` only if it did not.
pub fn read_record<G: Input>(
    alloc: Global,
    game: &mut G,
) -> Result<Result<Record, Decision>, RunFault>
    requires { HasRoom (G.device game.old) }
    ensures { IsRead most_bytes (G.device game.old) (G.device game.new) IsRecordOf result }
{
    let text = read_text(alloc, game, gcg_read::MAX_BYTES)?;
    Ok(record_from(alloc, &text)?)
}
