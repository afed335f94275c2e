//! The games of an archive that have a line already.

use crate::archiving::buffered;
use crate::read_lines::{ArchiveLines, NextLine, Taken};
use cli_files::{Trouble, open_source, shown};
use std::alloc::{AllocError, Global};
use std::collections::BTreeSet;
use std::io::BufRead;
use std::rt::Runtime;

/// The names that have a line.
#[derive(Drop)]
pub struct Done {
    names: BTreeSet<String>,
}

impl Done {
    /// Reads the names that have a line in a file; there are none if no file is named. If something in it is not a line of an archive,
    /// standard error says so, and the answer is `None`. Part of a line at the end is not a line: a shell that appends would join a
    /// line to it.
    pub fn read<'a, R: Runtime + AllocGlobal>(
        rt: &R,
        file: Option<&'a str>,
    ) -> Result<Option<Done>, Trouble<'a>> {
        let done = Done {
            names: BTreeSet::new(rt.alloc()),
        };
        match file {
            None => Ok(Some(done)),
            Some(file) => done.with_file(rt, file),
        }
    }

    /// These names, and those that have a line in a file.
    fn with_file<'a, R: Runtime + AllocGlobal>(
        self,
        rt: &R,
        file: &'a str,
    ) -> Result<Option<Done>, Trouble<'a>> {
        let reader = buffered(rt.alloc(), open_source(rt, file)?)?;
        let mut lines = ArchiveLines::new(rt.alloc(), reader, shown(file));
        let mut done = self;
        match done.take_lines(rt, &mut lines) {
            Ok(true) => Ok(Some(done)),
            Ok(false) => Ok(None),
            Err(trouble) => Err(trouble),
        }
    }

    /// Adds the names of these lines, and returns whether all are lines of an archive.
    fn take_lines<'a, R: Runtime + AllocGlobal, B: BufRead + Drop>(
        &mut self,
        rt: &R,
        lines: &mut ArchiveLines<'a, B>,
    ) -> Result<bool, Trouble<'a>> {
        for _ in 0..u64::MAX {
            match self.take_line(rt, lines)? {
                Taken::Line => {}
                Taken::End => break,
                Taken::Refused => return Ok(false),
            }
        }
        Ok(true)
    }

    /// Adds the name of the next line.
    fn take_line<'a, R: Runtime + AllocGlobal, B: BufRead + Drop>(
        &mut self,
        rt: &R,
        lines: &mut ArchiveLines<'a, B>,
    ) -> Result<Taken, Trouble<'a>> {
        match lines.next_line(rt.alloc()) {
            Ok(NextLine::Whole(line)) => match self.names.insert(line.name) {
                Ok(_) => Ok(Taken::Line),
                Err(_) => Err(Trouble::NoMemory),
            },
            Ok(NextLine::End) => Ok(Taken::End),
            Ok(NextLine::NoLine) => {
                lines.report_no_line(rt);
                Ok(Taken::Refused)
            }
            Ok(NextLine::Part) => {
                lines.report_part(rt);
                Ok(Taken::Refused)
            }
            Err(trouble) => Err(trouble),
        }
    }

    /// Whether a game of this name has a line. If a name is not UTF-8, its line has it as text with U+FFFD.
    pub fn has<'a>(&self, alloc: Global, name: &[u8]) -> Result<bool, Trouble<'a>> {
        if self.names.is_empty() {
            return Ok(false);
        }
        match String::from_utf8_lossy(alloc, name) {
            Ok(name) => Ok(self.names.contains(name.as_str())),
            Err(AllocError) => Err(Trouble::NoMemory),
        }
    }
}
