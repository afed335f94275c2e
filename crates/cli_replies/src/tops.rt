//! `top --json` with a rack that is not one.

use cli_args::GameFiles;
use cli_files::{Trouble, open_inputs, open_sheet, refuse_in_json};
use engine_stages::{Decision, InputFault};
use game_exits::Exit;
use gcg_read::read_rack;
use std::rt::Runtime;

/// Whether what is named is a rack, if something is.
pub(crate) fn is_rack(rack: Option<&str>) -> bool {
    match rack {
        None => true,
        Some(rack) => read_rack(rack.as_bytes()).is_some(),
    }
}

/// Opens the files of a record, and writes that the rack is not one.
pub(crate) fn refuse_rack<'a, R: Runtime + AllocGlobal>(
    rt: &R,
    files: GameFiles<'a>,
) -> Result<Exit, Trouble<'a>> {
    open_inputs(rt, files.rules, files.pair, false)?;
    open_sheet(rt, files.game)?;
    match Decision::refused(rt.alloc(), InputFault::Rack) {
        Ok(decision) => refuse_in_json(rt, &decision),
        Err(_) => Err(Trouble::NoMemory),
    }
}
