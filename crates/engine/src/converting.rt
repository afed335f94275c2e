//! A compiled lexicon in another format, by the bytes of its input.
ghost use Rattle.std.specs.Prelude.{◌∷◌, [], IfOk};
ghost use Rattle.io_devices.specs.Devices.{HasRoom};
ghost use Rattle.engine.specs.Converting.{IsConvertedBy, IsConvertedFile};
ghost use Rattle.engine_stages.specs.Runs.{Decides, IsRun};
ghost use Rattle.engine_stages.specs.Sources.{lexicon_source};

use crate::building::too_many_arcs;
use engine_stages::{
    Decision, LexiconFault, RunFault, Verdict, bad_file, finish, open_within, read_lexicon,
};
use io_devices::{Input, Output};
use lex_build::{BuildFault, convert};
use lex_file::Format;
use std::alloc::{AllocError, Global};

/// The compiled lexicon of these bytes in a format, or the verdict that they are not one.
#[tactic(auto, using(crate::proofs::ConvertedFiles::converted, crate::proofs::ConvertedFiles::malformed, crate::proofs::ConvertedFiles::past_limit))]
fn convert_bytes(alloc: Global, bytes: &[u8], format: Format) -> Result<Decision, AllocError>
    ensures { IfOk result (λ d. IsConvertedBy format bytes.now d.verdict d.report.items) }
{
    let file = match open_within(bytes) {
        Ok(file) => file,
        Err(first) => return bad_file(alloc, LexiconFault::Form(first)),
    };
    match convert(alloc, &file, format) {
        Ok(report) => Ok(Decision {
            verdict: Verdict::Done,
            report,
            fault: None,
        }),
        Err(BuildFault::TooManyArcs) => too_many_arcs(alloc),
        Err(BuildFault::NoMemory) => Err(AllocError),
    }
}

/// Reads a compiled lexicon, and gives it in a format.
fn decide_conversion<L: Input>(
    alloc: Global,
    lexicon: &mut L,
    format: Format,
) -> Result<Decision, RunFault>
    requires { HasRoom (L.device lexicon.old) }
    ensures { Decides (lexicon_source (L.device lexicon.old) (L.device lexicon.new) ∷ []) (IsConvertedFile format) result }
{
    let bytes = read_lexicon(alloc, lexicon)?;
    Ok(convert_bytes(alloc, &bytes, format)?)
}

/// Converts a compiled lexicon into a format, and writes the bytes of the file, or the line of a fault.
///
/// No word list is needed: the file has the language of the one that was read, whichever that is, and it need not be that
/// of any list. The lexicon is read to its end, or to one byte past its limit of 268,435,468 bytes and no further; one over
/// its limit has a wrong length, whatever its bytes are. What is written is made in memory before the first write.
///
/// # Errors
///
/// `ReadFailed` and `WriteFailed` come only if that device failed, or a write took no byte; `NoMemory` if memory
/// was refused. After `WriteFailed` a prefix of the bytes was written, after the other two nothing.
pub fn run_convert<L: Input, O: Output>(
    alloc: Global,
    lexicon: &mut L,
    format: Format,
    out: &mut O,
) -> Result<Verdict, RunFault>
    requires lexicon { HasRoom (L.device lexicon.old) }
    requires out { HasRoom (O.device out.old) }
    ensures { IsRun (lexicon_source (L.device lexicon.old) (L.device lexicon.new) ∷ []) (IsConvertedFile format) (O.device out.old) (O.device out.new) result }
{
    let decided = decide_conversion(alloc, lexicon, format);
    finish(out, decided)
}
