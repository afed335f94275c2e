//! The lines of requests, one after the other, in one buffer.

use std::alloc::Global;
use std::io::{self, BufRead, Read};

/// The largest number of bytes of a line, without its LF.
pub const LONGEST_LINE: usize = 4 << 20;

/// The lines of a text. The last one need not end in an LF.
#[derive(Drop)]
pub struct Lines<B> {
    reader: B,
    /// The line that was read last. The lines share its memory.
    line: Vec<u8>,
}

/// What is read next.
#[derive(Clone, Copy, Debug, PartialEq, Eq)]
pub enum NextLine {
    /// A line.
    Line,
    /// A line with too many bytes, which is passed over.
    TooLong,
    /// A line for which there is no memory, which is passed over.
    NoMemory,
    /// Nothing.
    End,
}

impl<B: BufRead + Drop> Lines<B> {
    /// The lines of the text that a reader gives.
    pub fn new(alloc: Global, reader: B) -> Lines<B> {
        Lines {
            reader,
            line: Vec::new(alloc),
        }
    }

    /// Reads the next line.
    pub fn next_line(&mut self) -> io::Result<NextLine> {
        self.line.clear();
        let most = LONGEST_LINE as u64 + 1;
        let read = self
            .reader
            .by_ref()
            .take(most)
            .read_until(b'\n', &mut self.line);
        match read {
            Ok(0) => Ok(NextLine::End),
            Ok(_) if self.line.len() > LONGEST_LINE && self.line.last() != Some(&b'\n') => {
                self.pass_over(NextLine::TooLong)
            }
            Ok(_) => Ok(NextLine::Line),
            Err(error) if error.kind() == io::ErrorKind::OutOfMemory => {
                self.pass_over(NextLine::NoMemory)
            }
            Err(error) => Err(error),
        }
    }

    /// Passes over the rest of a line, and returns `what`.
    fn pass_over(&mut self, what: NextLine) -> io::Result<NextLine> {
        self.line.clear();
        self.reader.skip_until(b'\n')?;
        Ok(what)
    }

    /// The line that was read last, with its LF if it has one.
    pub fn line(&self) -> &[u8] {
        self.line.as_slice()
    }
}
