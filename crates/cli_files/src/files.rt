//! The files of a call: how they are opened and written, and what is said of the one that failed.

use crate::sources::{Words, seen_words, shown};
use crate::troubles::Trouble;
use cli_args::STANDARD_OUTPUT_NAME;
use either::Either;
use engine_stages::{RunFault, Verdict};
use io_devices::{FromRead, FromWrite, write_whole};
use io_files::OutputFile;
use io_watch::{Reason, WatchedRead, WatchedWrite};
use std::io::{Printer, Read, Write};
use std::rt::{Files, Runtime};
use std::{fs, io};

/// The name of standard output in messages.
pub const STANDARD_OUTPUT: &str = "standard output";

/// The name of standard error in messages.
pub const STANDARD_ERROR: &str = "standard error";

/// How many bytes of what was written are kept: the line of a fault is shorter.
const KEPT: usize = 256;

/// Opens a file to be read.
pub fn open<'a, R: Files>(rt: &R, name: &'a str) -> Result<R::File, Trouble<'a>> {
    match fs::open(rt, name) {
        Ok(file) => Ok(file),
        Err(error) => Err(unopened(name, &error)),
    }
}

/// What is said of a file of this name that could not be opened.
pub fn unopened<'a>(name: &'a str, error: &io::Error) -> Trouble<'a> {
    if error.kind() == io::ErrorKind::OutOfMemory {
        Trouble::NoMemory
    } else {
        Trouble::CannotOpen(name, Reason::of(error))
    }
}

/// What is said of an output of this name if a write to it failed.
fn unwritten<'a>(name: &'a str, error: &io::Error) -> Trouble<'a> {
    if error.kind() == io::ErrorKind::OutOfMemory {
        Trouble::NoMemory
    } else {
        Trouble::WriteFailed(name, Reason::of(error))
    }
}

/// An output that a command names: a file that is written whole or not at all, or standard output.
pub type Outlet<'r, R> = Either<OutputFile<<R as Files>::File>, Printer<'r, R>>;

/// Opens the output of this name: standard output if it is `-`, and otherwise a file.
pub fn open_out<'r, 'a, R: Runtime + AllocGlobal>(
    rt: &'r R,
    name: &'a str,
) -> Result<Outlet<'r, R>, Trouble<'a>> {
    if name == STANDARD_OUTPUT_NAME {
        return Ok(Either::Right(io::writer(rt)));
    }
    match OutputFile::open(rt, name) {
        Ok(file) => Ok(Either::Left(file)),
        Err(error) => Err(unopened(name, &error)),
    }
}

/// Ends the output of this name after a call with this result: what was written to a file stays if the call finished, and otherwise
/// the file is as it was.
pub fn end_out<'a, T: Drop, R: Runtime>(
    rt: &R,
    name: &'a str,
    outlet: Outlet<'_, R>,
    outcome: Result<T, Trouble<'a>>,
) -> Result<T, Trouble<'a>> {
    let file = match outlet {
        Either::Left(file) => file,
        Either::Right(_) => return outcome,
    };
    let done = match outcome {
        Ok(done) => done,
        Err(trouble) => {
            file.discard(rt);
            return Err(trouble);
        }
    };
    match file.keep(rt) {
        Ok(()) => Ok(done),
        Err(error) => Err(unwritten(name, &error)),
    }
}

/// A writer that keeps the line of a fault that goes through it, and why a write failed.
pub fn watched<R: Runtime + AllocGlobal, W: Write + Drop>(rt: &R, inner: W) -> WatchedWrite<W> {
    WatchedWrite::new(rt.alloc(), inner, KEPT)
}

/// Writes bytes to the output of this name: whole or not at all if it is a file.
pub fn write_out<'a, R: Runtime + AllocGlobal>(
    rt: &R,
    name: &'a str,
    bytes: &[u8],
) -> Result<(), Trouble<'a>> {
    let outlet = open_out(rt, name)?;
    write_outlet(rt, name, outlet, bytes)
}

/// Writes bytes to the file of this name, whole or not at all. A device or a pipe is written in place.
pub fn write_whole_file<'a, R: Runtime + AllocGlobal>(
    rt: &R,
    name: &'a str,
    bytes: &[u8],
) -> Result<(), Trouble<'a>> {
    let file = match OutputFile::<R::File>::open(rt, name) {
        Ok(file) => file,
        Err(error) => return Err(unopened(name, &error)),
    };
    let mut out = FromWrite::new(watched(rt, file));
    let written = write_whole(&mut out, bytes);
    let out = out.into_inner();
    let reason = out.reason();
    let file = out.into_inner();
    if written.is_err() {
        file.discard(rt);
        return Err(Trouble::WriteFailed(name, reason));
    }
    match file.keep(rt) {
        Ok(()) => Ok(()),
        Err(error) => Err(unwritten(name, &error)),
    }
}

/// Writes bytes to an output, and ends it.
fn write_outlet<'a, R: Runtime + AllocGlobal>(
    rt: &R,
    name: &'a str,
    outlet: Outlet<'_, R>,
    bytes: &[u8],
) -> Result<(), Trouble<'a>> {
    let mut out = FromWrite::new(watched(rt, outlet));
    let written = write_whole(&mut out, bytes);
    let out = out.into_inner();
    let outcome = match written {
        Ok(()) => Ok(()),
        Err(_) => Err(Trouble::WriteFailed(shown_out(name), out.reason())),
    };
    end_out(rt, name, out.into_inner(), outcome)
}

/// The name of an output in messages.
pub fn shown_out(name: &str) -> &str {
    if name == STANDARD_OUTPUT_NAME {
        STANDARD_OUTPUT
    } else {
        name
    }
}

/// An input after a call: its name in messages, how many reads of it failed, and why the last of these did.
#[derive(Clone, Copy)]
pub struct InputFile<'a> {
    name: &'a str,
    failures: u64,
    reason: Reason,
}

impl<'a> InputFile<'a> {
    /// No input.
    pub const NONE: InputFile<'static> = InputFile {
        name: "",
        failures: 0,
        reason: Reason::Unknown,
    };

    /// The input with this name in messages, of which this many reads failed.
    fn new<F: Read + Drop>(name: &'a str, failures: u64, reader: &WatchedRead<F>) -> InputFile<'a> {
        InputFile {
            name,
            failures,
            reason: reader.reason(),
        }
    }
}

/// The rules text of this name, if there is one.
pub fn used_rules<'a, F: Read + Drop>(
    name: Option<&'a str>,
    input: &Option<FromRead<WatchedRead<F>>>,
) -> InputFile<'a> {
    match (name, input) {
        (Some(name), Some(input)) => used(name, input),
        _ => InputFile::NONE,
    }
}

/// The word list of this name on the command line.
pub fn used_words<'a, S: Read + Drop>(name: &'a str, input: &FromRead<Words<S>>) -> InputFile<'a> {
    InputFile::new(shown(name), input.failures(), seen_words(input))
}

/// The record of this name on the command line.
pub fn used_source<'a, F: Read + Drop>(
    name: &'a str,
    input: &FromRead<WatchedRead<F>>,
) -> InputFile<'a> {
    used(shown(name), input)
}

/// The input of the file of this name.
pub fn used<'a, F: Read + Drop>(name: &'a str, input: &FromRead<WatchedRead<F>>) -> InputFile<'a> {
    InputFile::new(name, input.failures(), input.inner())
}

/// An output after a call: its name in messages, and why the last failed write to it failed.
#[derive(Clone, Copy)]
pub struct UsedOutput<'a> {
    name: &'a str,
    reason: Reason,
}

impl<'a> UsedOutput<'a> {
    /// No output.
    pub const NONE: UsedOutput<'static> = UsedOutput {
        name: "",
        reason: Reason::Unknown,
    };

    /// The output with this name in messages.
    pub fn new<W: Write + Drop>(name: &'a str, writer: &WatchedWrite<W>) -> UsedOutput<'a> {
        UsedOutput {
            name,
            reason: writer.reason(),
        }
    }
}

/// Why a call gave up. If an input failed, it is the first of these that has a failure; otherwise the output did.
pub fn given_up<'a>(fault: RunFault, inputs: &[InputFile<'a>], out: UsedOutput<'a>) -> Trouble<'a> {
    match inputs.iter().find(|input| input.failures > 0) {
        Some(input) => Trouble::of(fault, input.name, input.reason),
        None => Trouble::of(fault, out.name, out.reason),
    }
}

/// The result of a call that wrote to this output and read these inputs.
pub fn verdict_of<'a>(
    outcome: Result<Verdict, RunFault>,
    inputs: &[InputFile<'a>],
    out: UsedOutput<'a>,
) -> Result<Verdict, Trouble<'a>> {
    match outcome {
        Ok(verdict) => Ok(verdict),
        Err(fault) => Err(given_up(fault, inputs, out)),
    }
}
