//! The lexicon of a word list, a GADDAG, by the bytes of its input.
ghost use Rattle.std.specs.Prelude.{◌∷◌, [], IfOk};
ghost use Rattle.io_devices.specs.Devices.{HasRoom};
ghost use Rattle.engine_stages.specs.declared.verdicts.Verdict.TheVariants as verdict;
ghost use Rattle.engine.specs.Building.{IsBuilt, IsBuiltBy};
ghost use Rattle.engine_stages.specs.Reports as reports;
ghost use Rattle.engine_stages.specs.Runs.{Decides, IsRun};
ghost use Rattle.engine_stages.specs.Sources.{words_source};
ghost use Rattle.engine_stages.specs.Reporting.{IsReported};

use engine_stages::{Decision, InputFault, RunFault, Verdict, finish, read_list};
use io_devices::{Input, Output};
use lex_build::{BuildFault, build};
use lex_list::WordList;
use std::alloc::{AllocError, Global};

/// The verdict that the file to be made would have more arcs, or words, than its format can number.
pub(crate) fn too_many_arcs(alloc: Global) -> Result<Decision, AllocError>
    ensures { IfOk result (λ d. IsReported verdict.BadFile reports.too_many_arcs_line d.verdict d.report.items) }
{
    Decision::refused(alloc, InputFault::TooManyArcs)
}

/// The lexicon of a word list, or the verdict that it has too many arcs.
#[tactic(auto, using(crate::proofs::BuiltFiles::built, crate::proofs::BuiltFiles::too_large))]
fn build_list(alloc: Global, list: &WordList) -> Result<Decision, AllocError>
    ensures { IfOk result (λ d. IsBuiltBy list.now d.verdict d.report.items) }
{
    match build(alloc, list) {
        Ok(report) => Ok(Decision {
            verdict: Verdict::Done,
            report,
            fault: None,
        }),
        Err(BuildFault::TooManyArcs) => too_many_arcs(alloc),
        Err(BuildFault::NoMemory) => Err(AllocError),
    }
}

/// Reads a word list, and gives its lexicon.
fn decide_lexicon<W: Input>(alloc: Global, words: &mut W) -> Result<Decision, RunFault>
    requires { HasRoom (W.device words.old) }
    ensures { Decides (words_source (W.device words.old) (W.device words.new) ∷ []) IsBuilt result }
{
    let list = match read_list(alloc, words)? {
        Ok(list) => list,
        Err(decision) => return Ok(decision),
    };
    Ok(build_list(alloc, &list)?)
}

/// Builds the lexicon of a word list, a GADDAG, and writes the bytes of its file, or the line of a fault.
///
/// The words are read to their end, or to one byte past 16 MiB and no further. What is written is made in memory before
/// the first write.
///
/// `TooManyArcs` comes only if the paths have more than 33,554,431 labels together.
///
/// # Errors
///
/// `ReadFailed` and `WriteFailed` come only if that device failed, or a write took no byte; `NoMemory` if memory
/// was refused. After `WriteFailed` a prefix of the bytes was written, after the other two nothing.
pub fn run_build<W: Input, O: Output>(
    alloc: Global,
    words: &mut W,
    out: &mut O,
) -> Result<Verdict, RunFault>
    requires words { HasRoom (W.device words.old) }
    requires out { HasRoom (O.device out.old) }
    ensures { IsRun (words_source (W.device words.old) (W.device words.new) ∷ []) IsBuilt (O.device out.old) (O.device out.new) result }
{
    let decided = decide_lexicon(alloc, words);
    finish(out, decided)
}
