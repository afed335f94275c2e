//! The sheets that a command names, as the inputs of a call.
ghost use Rattle.std.specs.Prelude.{IfOk, OnOk, map};
ghost use Rattle.reply_calls.specs.Sheets.{HaveRoom};

use cli_files::{InputFile, SheetFile, Source, Trouble, open_sheet, used_source};
use io_devices::Input;
use std::io::Read;
use std::rt::Runtime;

/// The open sheets of a command, in the order in which they are read.
pub type Sheets<R> = Vec<SheetFile<Source<R>>>;

/// Opens one more sheet.
#[tactic(auto, using(crate::proofs::OpenSheets::one_more))]
fn open_next<'a, R: Runtime + AllocGlobal>(
    rt: &R,
    name: &'a str,
    sheets: &mut Sheets<R>,
) -> Result<(), Trouble<'a>>
    requires { HaveRoom (map ⟦<SheetFile<Source<R>> as Input>⟧.device sheets.old.items) }
    ensures { OnOk result (HaveRoom (map ⟦<SheetFile<Source<R>> as Input>⟧.device sheets.new.items)) }
{
    let sheet = open_sheet(rt, name)?;
    match sheets.push(sheet) {
        Ok(()) => Ok(()),
        Err(_) => Err(Trouble::NoMemory),
    }
}

/// Opens the one sheet of a command.
pub fn open_one<'a, R: Runtime + AllocGlobal>(
    rt: &R,
    name: &'a str,
) -> Result<Sheets<R>, Trouble<'a>>
    ensures { IfOk result (λ sheets. HaveRoom (map ⟦<SheetFile<Source<R>> as Input>⟧.device sheets.items)) }
{
    let mut sheets = Vec::new(rt.alloc());
    open_next(rt, name, &mut sheets)?;
    Ok(sheets)
}

/// Opens the two sheets of a command.
pub fn open_two<'a, R: Runtime + AllocGlobal>(
    rt: &R,
    first: &'a str,
    second: &'a str,
) -> Result<Sheets<R>, Trouble<'a>>
    ensures { IfOk result (λ sheets. HaveRoom (map ⟦<SheetFile<Source<R>> as Input>⟧.device sheets.items)) }
{
    let mut sheets = Vec::new(rt.alloc());
    open_next(rt, first, &mut sheets)?;
    open_next(rt, second, &mut sheets)?;
    Ok(sheets)
}

/// The sheet at a place after a call, by its name on the command line.
pub fn used_at<'a, S: Read + Drop>(
    name: &'a str,
    sheets: &[SheetFile<S>],
    place: usize,
) -> InputFile<'a> {
    match sheets.get(place) {
        Some(sheet) => used_source(name, sheet),
        None => InputFile::NONE,
    }
}
