//! Whether a file is the lexicon of a word list, by the bytes of both.
ghost use Rattle.std.specs.Prelude.{◌∷◌, [], length, IfOk};
ghost use Rattle.io_devices.specs.Devices.{HasRoom};
ghost use Rattle.lex_check.specs.Pairs.{list_in};
ghost use Rattle.engine.specs.Checking.{IsChecked};
ghost use Rattle.engine_stages.specs.declared.verdicts.Verdict.TheVariants as verdict;
ghost use Rattle.engine_stages.specs.Reading.{ReadsNoMore, ReadsLexicon, ByLexicon};
ghost use Rattle.engine_stages.specs.Reports as reports;
ghost use Rattle.engine_stages.specs.Runs.{Decides, IsRun};
ghost use Rattle.engine_stages.specs.Sources.{words_source, lexicon_source};
ghost use Rattle.engine_stages.specs.Reporting.{IsReported};

use engine_stages::{
    Decision, RunFault, Verdict, finish, ok_line, pair_file, read_lexicon, read_list,
};
use io_devices::{Input, Output};
use lex_check::Checked;
use lex_list::WordList;
use std::alloc::{AllocError, Global};

/// The verdict that it is done, with the number of words of a list and its lexicon.
fn report_number(alloc: Global, pair: &Checked<'_>) -> Result<Decision, AllocError>
    ensures { IfOk result (λ d. IsReported verdict.Done (reports.ok_line (length (list_in pair.now))) d.verdict d.report.items) }
{
    let report = ok_line(alloc, pair.list().len())?;
    Ok(Decision {
        verdict: Verdict::Done,
        report,
        fault: None,
    })
}

/// The number of words of a list, if the bytes of a file are its lexicon; otherwise what is wrong with them.
fn check_bytes(alloc: Global, list: &WordList, bytes: &[u8]) -> Result<Decision, AllocError>
    ensures { IfOk result (λ d. ByLexicon list.now (ReadsNoMore (IsReported verdict.Done (reports.ok_line (length list.now)))) bytes.now [] d.verdict d.report.items) }
{
    match pair_file(alloc, list, bytes)? {
        Ok(pair) => report_number(alloc, &pair),
        Err(decision) => Ok(decision),
    }
}

/// Reads the lexicon of a list, and gives the number of its words, or what is wrong with the file.
fn decide_file<L: Input>(
    alloc: Global,
    list: &WordList,
    lexicon: &mut L,
) -> Result<Decision, RunFault>
    requires { HasRoom (L.device lexicon.old) }
    ensures { Decides (lexicon_source (L.device lexicon.old) (L.device lexicon.new) ∷ [])
        (ReadsLexicon list.now (ReadsNoMore (IsReported verdict.Done (reports.ok_line (length list.now))))) result }
{
    let bytes = read_lexicon(alloc, lexicon)?;
    Ok(check_bytes(alloc, list, &bytes)?)
}

/// Checks that a file is the lexicon of a word list, and writes the number of words, or the line of the first fault.
///
/// The words are read before the lexicon, each to its end, or to one byte past its limit of 16 MiB or 268,435,468 bytes
/// and no further; if the words are not a list, the lexicon is not read. A lexicon over its limit has a wrong length,
/// whatever its bytes are. What is written is made in memory before the first write.
///
/// # Errors
///
/// `ReadFailed` and `WriteFailed` come only if that device failed, or a write took no byte; `NoMemory` if memory
/// was refused. After `WriteFailed` a prefix of the text was written, after the other two nothing.
pub fn run_check<W: Input, L: Input, O: Output>(
    alloc: Global,
    words: &mut W,
    lexicon: &mut L,
    out: &mut O,
) -> Result<Verdict, RunFault>
    requires words { HasRoom (W.device words.old) }
    requires lexicon { HasRoom (L.device lexicon.old) }
    requires out { HasRoom (O.device out.old) }
    ensures { IsRun (words_source (W.device words.old) (W.device words.new) ∷ lexicon_source (L.device lexicon.old) (L.device lexicon.new) ∷ [])
        IsChecked (O.device out.old) (O.device out.new) result }
{
    let list = match read_list(alloc, words) {
        Ok(Ok(list)) => list,
        Ok(Err(decision)) => return finish(out, Ok(decision)),
        Err(fault) => return Err(fault),
    };
    let decided = decide_file(alloc, &list, lexicon);
    finish(out, decided)
}
