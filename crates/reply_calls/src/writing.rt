//! How what was found is written.
ghost use Rattle.std.specs.Prelude.{◌≡◌, IfErr, IfSome, IsTrue, OnOk, OnErr, is_some};
ghost use Rattle.std.specs.Io.KnownBytes.{Appends};
ghost use Rattle.io_devices.specs.Devices.{HasRoom, HasWorked};
ghost use Rattle.io_devices.specs.Outputs.{SendsFront};
ghost use Rattle.engine_stages.specs.declared.faults.RunFault.TheVariants.{WriteFailed};
ghost use Rattle.engine_stages.specs.Runs.{HasStopped};
ghost use Rattle.reply_calls.specs.Calls.{IsWriting, StopsOutput};

use crate::asking::Rendering;
use crate::ended::{Ended, exit_of_found, refused_of};
use crate::outlets::Outlet;
use crate::printed::Printed;
use engine_stages::{Decision, RunFault};
use io_devices::{Output, write_whole};
use std::alloc::Global;

/// Keeps a text, if there is one.
fn keep<K: Outlet>(kept: &mut K, text: &Option<Vec<u8>>) -> Result<(), RunFault>
    ensures held { OnOk result (IfSome text.now (λ t. K.holds kept.new t.items)) }
    ensures fault { IfErr result (λ fault. fault ≡ WriteFailed) }
    ensures some { OnErr result (IsTrue (is_some text.now)) }
    ensures failed { OnErr result (K.has_failed kept.new) }
{
    let Some(text) = text else {
        return Ok(());
    };
    match kept.keep(text.as_slice()) {
        Ok(()) => Ok(()),
        Err(_) => Err(RunFault::WriteFailed),
    }
}

/// Writes a report.
fn send<O: Output>(out: &mut O, report: &[u8]) -> Result<(), RunFault>
    requires { HasRoom (O.device out.old) }
    ensures sent { OnOk result (Appends (O.device out.old).bytes (O.device out.new).bytes report.now) }
    ensures worked { OnOk result (HasWorked (O.device out.old) (O.device out.new)) }
    ensures fault { IfErr result (λ fault. fault ≡ WriteFailed) }
    ensures stopped { OnErr result (HasStopped (O.device out.old) (O.device out.new)) }
    ensures front { OnErr result (SendsFront (O.device out.old) (O.device out.new) report.now) }
{
    match write_whole(out, report) {
        Ok(()) => Ok(()),
        Err(_) => Err(RunFault::WriteFailed),
    }
}

/// Writes what is printed of what was found.
#[tactic(auto, using(crate::proofs::Replying::keeping_failed, crate::proofs::Replying::sending_stopped))]
fn write_printed<K: Outlet, O: Output>(
    printed: &Printed,
    kept: &mut K,
    out: &mut O,
) -> Result<(), RunFault>
    requires { HasRoom (O.device out.old) }
    ensures held { OnOk result (IfSome printed.now.kept (λ t. K.holds kept.new t.items)) }
    ensures sent { OnOk result (Appends (O.device out.old).bytes (O.device out.new).bytes printed.now.report.items) }
    ensures worked { OnOk result (HasWorked (O.device out.old) (O.device out.new)) }
    ensures fault { IfErr result (λ fault. fault ≡ WriteFailed) }
    ensures stopped { OnErr result (StopsOutput (K.holds kept.new) (K.has_failed kept.new) printed.now (O.device out.old) (O.device out.new)) }
{
    match keep(kept, &printed.kept) {
        Ok(()) => send(out, printed.report.as_slice()),
        Err(fault) => Err(fault),
    }
}

/// Writes what was found: first the text to be kept, if there is one, then the report.
#[tactic(auto, using(crate::proofs::Replying::written, crate::proofs::Replying::output_failed, crate::proofs::Replying::memory_refused))]
pub fn write_found<A: Drop, T: Rendering<A>, K: Outlet, O: Output>(
    alloc: Global,
    rendering: &T,
    found: Result<A, Decision>,
    kept: &mut K,
    out: &mut O,
) -> Result<Ended, RunFault>
    requires { HasRoom (O.device out.old) }
    ensures { IsWriting (T.shows rendering.now) T.status (K.holds kept.new) (K.has_failed kept.new) found (O.device out.old) (O.device out.new) result }
{
    let printed = match rendering.render(alloc, &found) {
        Ok(printed) => printed,
        Err(_) => return Err(RunFault::NoMemory),
    };
    match write_printed(&printed, kept, out) {
        Ok(()) => {
            let exit = exit_of_found(rendering, &found);
            Ok(Ended {
                exit,
                refused: refused_of(found),
            })
        }
        Err(fault) => Err(fault),
    }
}
