//! The normal form of a record, by the bytes of its input.
ghost use Rattle.std.specs.Prelude.{◌≡◌, ◌∷◌, [], IfOk};
ghost use Rattle.io_devices.specs.Devices.{HasRoom};
ghost use Rattle.gcg_write.specs.Normal.{normal_of};
ghost use Rattle.engine_stages.specs.declared.verdicts.Verdict.TheVariants as verdict;
ghost use Rattle.engine_stages.specs.Runs.{Decides, IsRun};
ghost use Rattle.engine_stages.specs.Sources.{game_source};
ghost use Rattle.engine_stages.specs.Reporting.{IsReported};
ghost use Rattle.engine.specs.Tidying.{IsTidied};

use engine_stages::{Decision, RunFault, Verdict, finish, read_record};
use gcg_read::Record;
use gcg_write::write;
use io_devices::{Input, Output};
use std::alloc::{AllocError, Global};

/// The normal form of a record.
fn normal_form(alloc: Global, game: &Record) -> Result<Vec<u8>, AllocError>
    ensures { IfOk result (λ text. text.items ≡ normal_of game.now) }
{
    let mut text = Vec::new(alloc);
    write(game, &mut text)?;
    Ok(text)
}

/// The verdict that it is done, with the normal form of a record.
fn tidy(alloc: Global, game: &Record) -> Result<Decision, AllocError>
    ensures { IfOk result (λ d. IsReported verdict.Done (normal_of game.now) d.verdict d.report.items) }
{
    let report = normal_form(alloc, game)?;
    Ok(Decision {
        verdict: Verdict::Done,
        report,
        fault: None,
    })
}

/// Reads a record, and gives its normal form.
fn decide_tidy<G: Input>(alloc: Global, game: &mut G) -> Result<Decision, RunFault>
    requires { HasRoom (G.device game.old) }
    ensures { Decides (game_source (G.device game.old) (G.device game.new) ∷ []) IsTidied result }
{
    let record = match read_record(alloc, game)? {
        Ok(record) => record,
        Err(decision) => return Ok(decision),
    };
    Ok(tidy(alloc, &record)?)
}

/// Writes the normal form of a record, or the line of its first fault.
///
/// The record is read to its end, or to one byte past 1 MiB and no further. What is written is made in memory before
/// the first write.
///
/// # Errors
///
/// `ReadFailed` and `WriteFailed` come only if that device failed, or a write took no byte; `NoMemory` if memory
/// was refused. After `WriteFailed` a prefix of the text was written, after the other two nothing.
pub fn run_tidy<G: Input, O: Output>(
    alloc: Global,
    game: &mut G,
    out: &mut O,
) -> Result<Verdict, RunFault>
    requires game { HasRoom (G.device game.old) }
    requires out { HasRoom (O.device out.old) }
    ensures { IsRun (game_source (G.device game.old) (G.device game.new) ∷ []) IsTidied (O.device out.old) (O.device out.new) result }
{
    let decided = decide_tidy(alloc, game);
    finish(out, decided)
}
