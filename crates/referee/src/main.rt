//! The program `referee`: it reads the command line, opens the files, and lets the engine judge.
//!
//! Exit statuses: 0 legal, done or help, 1 illegal, 2 unsettled, 3 bad input, 4 a device or memory, 64 the command line.
#![tactic(auto)]

mod running;

use crate::running::run_program;
use io_terminals::Guarded;
use std::io::IsTerminal;
use std::process::ExitCode;

fn main(rt: HostRuntime) -> ExitCode {
    let watched = rt.stderr().is_terminal();
    let shown = rt.stdout().is_terminal();
    let rt = Guarded::new(rt, shown, watched);
    ExitCode::from(run_program(&rt, watched).status())
}
