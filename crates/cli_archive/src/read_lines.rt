//! The lines of earlier archive runs, one after the other.

use archive_lines::LineRead;
use cli_files::Trouble;
use io_watch::Reason;
use std::alloc::Global;
use std::io::{self, BufRead};
use std::rt::Runtime;

/// The lines of a text.
#[derive(Drop)]
pub struct ArchiveLines<'a, B> {
    reader: B,
    /// The name of the text in messages.
    name: &'a str,
    /// The line that was read last.
    line: Vec<u8>,
    /// Its number.
    number: u64,
}

/// What is read next.
#[derive(Drop)]
pub enum NextLine {
    /// A line of an archive.
    Whole(LineRead),
    /// A line that is not one of an archive.
    NoLine,
    /// The text ends without an LF.
    Part,
    /// Nothing.
    End,
}

/// What was done with a line that was read.
#[derive(Clone, Copy)]
pub enum Taken {
    /// It was taken.
    Line,
    /// There is none: the text has ended.
    End,
    /// It is not one that can be taken, and standard error says so.
    Refused,
}

impl<'a, B: BufRead + Drop> ArchiveLines<'a, B> {
    /// The lines of the text that a reader gives; messages call the text by this name.
    pub fn new(alloc: Global, reader: B, name: &'a str) -> ArchiveLines<'a, B> {
        ArchiveLines {
            reader,
            name,
            line: Vec::new(alloc),
            number: 0,
        }
    }

    /// Reads the next line.
    pub fn next_line(&mut self, alloc: Global) -> Result<NextLine, Trouble<'a>> {
        self.line.clear();
        match self.reader.read_until(b'\n', &mut self.line) {
            Ok(0) => return Ok(NextLine::End),
            Ok(_) => self.number = self.number.saturating_add(1),
            Err(error) if error.kind() == io::ErrorKind::OutOfMemory => {
                return Err(Trouble::NoMemory);
            }
            Err(error) => return Err(Trouble::ReadFailed(self.name, Reason::of(&error))),
        }
        let [line @ .., b'\n'] = self.line.as_slice() else {
            return Ok(NextLine::Part);
        };
        match LineRead::of(alloc, line) {
            Ok(Some(line)) => Ok(NextLine::Whole(line)),
            Ok(None) => Ok(NextLine::NoLine),
            Err(_) => Err(Trouble::NoMemory),
        }
    }

    /// Writes to standard error that the last line is not one of an archive.
    pub fn report_no_line<R: Runtime>(&self, rt: &R) {
        let (name, number) = (self.name, self.number);
        let _ = rt.eprintln(format_args!(
            "referee: {name} line {number} is not a line of an archive"
        ));
    }

    /// Writes to standard error that the last line names a page outside the folder of the index.
    pub fn report_outside<R: Runtime>(&self, rt: &R) {
        let (name, number) = (self.name, self.number);
        let _ = rt.eprintln(format_args!(
            "referee: {name} line {number} names a page outside the folder of the index"
        ));
    }

    /// Writes to standard error that the text ends with part of a line.
    pub fn report_part<R: Runtime>(&self, rt: &R) {
        let (name, number) = (self.name, self.number);
        let _ = rt.eprintln(format_args!(
            "referee: {name} ends with part of line {number}: drop that part, and run this again"
        ));
    }
}
