//! A runtime whose standard output and standard error show control characters if they are terminals.

use crate::showing::{shown, write_shown};
use std::alloc::{AllocError, Global};
use std::fmt::Display;
use std::io;
use std::rt::Runtime;

/// A runtime that passes everything on to the one inside it. What goes to standard output or to standard error is shown if that is a terminal, and
/// otherwise it is passed on as it is.
#[derive(Clone, Drop)]
pub struct Guarded<R> {
    pub(crate) rt: R,
    /// Whether standard output is a terminal.
    output: bool,
    /// Whether standard error is one.
    errors: bool,
}

impl<R: Runtime + AllocGlobal> Guarded<R> {
    /// A runtime over this one; `output` and `errors` say whether its standard output and its standard error are terminals.
    pub fn new(rt: R, output: bool, errors: bool) -> Guarded<R> {
        Guarded { rt, output, errors }
    }

    /// Writes bytes to standard output as they are shown, each call by itself.
    fn put(&self, bytes: &[u8]) -> io::Result<()> {
        let mut writer = io::writer(&self.rt);
        write_shown(self.rt.alloc(), &mut writer, bytes)
    }

    /// A value as text, as it is shown.
    fn text_of<D: Display + Drop>(&self, value: D) -> io::Result<String> {
        let alloc: Global = self.rt.alloc();
        let Ok(text) = format!(in alloc; "{value}") else {
            return Err(io::Error::from(AllocError));
        };
        let bytes = shown(alloc, text.as_bytes())?;
        Ok(String::from_utf8_lossy(alloc, bytes.as_slice())?)
    }
}

impl<R: Runtime + AllocGlobal> Print for Guarded<R> {
    fn print<D: Display + Drop>(&self, value: D) -> io::Result<()> {
        if !self.output {
            return self.rt.print(value);
        }
        self.rt.print(self.text_of(value)?)
    }

    fn println<D: Display + Drop>(&self, value: D) -> io::Result<()> {
        if !self.output {
            return self.rt.println(value);
        }
        self.rt.println(self.text_of(value)?)
    }

    fn write_all(&self, bytes: &[u8]) -> io::Result<()> {
        if self.output {
            self.put(bytes)
        } else {
            self.rt.write_all(bytes)
        }
    }

    fn write_some(&self, bytes: &[u8]) -> io::Result<usize> {
        if !self.output {
            return self.rt.write_some(bytes);
        }
        self.put(bytes)?;
        Ok(bytes.len())
    }
}

impl<R: Runtime + AllocGlobal> Eprint for Guarded<R> {
    fn eprint<D: Display + Drop>(&self, value: D) -> io::Result<()> {
        if !self.errors {
            return self.rt.eprint(value);
        }
        self.rt.eprint(self.text_of(value)?)
    }

    fn eprintln<D: Display + Drop>(&self, value: D) -> io::Result<()> {
        if !self.errors {
            return self.rt.eprintln(value);
        }
        self.rt.eprintln(self.text_of(value)?)
    }
}
