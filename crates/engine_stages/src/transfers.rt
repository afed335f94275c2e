//! Reads of whole inputs, and writes of whole reports.
ghost use Rattle.std.specs.Prelude.{◌≡◌, ◌+◌, IfOk, IfErr, OnOk, OnErr};
ghost use Rattle.std.specs.Io.KnownBytes.{Appends};
ghost use Rattle.io_devices.specs.Devices.{HasRoom, HasWorked};
ghost use Rattle.io_devices.specs.Inputs.{IsInput, TakesAtMost};
ghost use Rattle.io_devices.specs.Outputs.{SendsFront};
ghost use Rattle.engine_stages.specs.declared.faults.RunFault.TheVariants.{WriteFailed};
ghost use Rattle.engine_stages.specs.Runs.{HasStopped, IsSent};
ghost use Rattle.engine_stages.specs.Stages.{ReadGivesUp};

use crate::decisions::Decision;
use crate::faults::RunFault;
use crate::verdicts::Verdict;
use io_devices::{Input, Output, ReadGaveUp, read_within, write_whole};
use std::alloc::Global;

/// Reads an input to its end, or to one byte past the limit and no further.
pub fn read_text<I: Input>(alloc: Global, input: &mut I, limit: usize) -> Result<Vec<u8>, RunFault>
    requires { HasRoom (I.device input.old) }
    ensures whole { IfOk result (λ text. IsInput limit (I.device input.old) text.items) }
    ensures worked { OnOk result (HasWorked (I.device input.old) (I.device input.new)) }
    ensures stopped { IfErr result (λ fault. ReadGivesUp fault (I.device input.old) (I.device input.new)) }
    ensures taken { TakesAtMost (limit + 1) (I.device input.old) (I.device input.new) }
{
    match read_within(alloc, input, limit) {
        Ok(text) => Ok(text),
        Err(ReadGaveUp::Failed) => Err(RunFault::ReadFailed),
        Err(ReadGaveUp::NoMemory) => Err(RunFault::NoMemory),
    }
}

/// Writes the report of a decision, and gives its verdict.
fn send<O: Output>(out: &mut O, decision: &Decision) -> Result<Verdict, RunFault>
    requires { HasRoom (O.device out.old) }
    ensures verdict { IfOk result (λ v. v ≡ decision.now.verdict) }
    ensures sent { OnOk result (Appends (O.device out.old).bytes (O.device out.new).bytes decision.now.report.items) }
    ensures worked { OnOk result (HasWorked (O.device out.old) (O.device out.new)) }
    ensures fault { IfErr result (λ fault. fault ≡ WriteFailed) }
    ensures stopped { OnErr result (HasStopped (O.device out.old) (O.device out.new)) }
    ensures front { OnErr result (SendsFront (O.device out.old) (O.device out.new) decision.now.report.items) }
{
    match write_whole(out, &decision.report) {
        Ok(()) => Ok(decision.verdict),
        Err(_) => Err(RunFault::WriteFailed),
    }
}

/// Writes the report of what was decided, and gives its verdict; if nothing was decided, says why, and writes nothing. After `WriteFailed` a prefix
/// of the report was written.
pub fn finish<O: Output>(
    out: &mut O,
    decided: Result<Decision, RunFault>,
) -> Result<Verdict, RunFault>
    requires { HasRoom (O.device out.old) }
    ensures { IsSent decided (O.device out.old) (O.device out.new) result }
{
    match decided {
        Ok(decision) => send(out, &decision),
        Err(fault) => Err(fault),
    }
}
