//! The names of the games of an archive, one after the other.

use std::io::{self, BufRead};

/// Where the names of games come from.
pub trait Names {
    /// Puts the next name into the buffer, which is empty, and returns whether there is one.
    fn next_name(&mut self, name: &mut Vec<u8>) -> io::Result<bool>;
}

/// The names that the command line gives.
#[derive(Drop)]
pub struct Given<'a> {
    names: &'a [&'a str],
    next: usize,
}

impl<'a> Given<'a> {
    /// These names.
    pub fn new(names: &'a [&'a str]) -> Given<'a> {
        Given { names, next: 0 }
    }
}

impl Names for Given<'_> {
    fn next_name(&mut self, name: &mut Vec<u8>) -> io::Result<bool> {
        let Some(given) = self.names.get(self.next) else {
            return Ok(false);
        };
        name.extend_from_slice(given.as_bytes())?;
        self.next = self.next.saturating_add(1);
        Ok(true)
    }
}

/// The names of a text, each up to the byte that ends it. Empty ones are passed over.
#[derive(Drop)]
pub struct Listed<B> {
    reader: B,
    end: u8,
}

impl<B: BufRead + Drop> Listed<B> {
    /// The names of the text that a reader gives; this byte ends each.
    pub fn new(reader: B, end: u8) -> Listed<B> {
        Listed { reader, end }
    }
}

impl<B: BufRead + Drop> Names for Listed<B> {
    fn next_name(&mut self, name: &mut Vec<u8>) -> io::Result<bool> {
        for _ in 0..u64::MAX {
            if self.reader.read_until(self.end, name)? == 0 {
                return Ok(false);
            }
            if name.last() == Some(&self.end) {
                name.pop();
            }
            if !name.is_empty() {
                return Ok(true);
            }
        }
        Ok(false)
    }
}
