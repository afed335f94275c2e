//! A reader that gives the lines of another one that are words.
ghost use Rattle.std.specs.Prelude.{◌≡◌, is_some, option_map};
ghost use Rattle.lex_words.specs.Lines.{word_lines};
ghost use Rattle.lex_words.specs.Reading.{remaining_by};

use crate::lines::Others;
use crate::sieves::Sieve;
use std::alloc::Global;
use std::io::{Read, Result};

/// A reader whose text has nothing in place of each line that is not a word of 2 to 15 letters, as a word list reads it. So lines keep their numbers.
/// It counts these lines, and keeps the first that is not empty. On request it gives all lines as they are. How many lines it counts, and which is
/// the first, is tested.
#[derive(Drop)]
pub struct WordLines<R> {
    inner: R,
    /// What is read and held back; nothing if it gives all lines.
    sieve: Option<Sieve>,
}

impl<R: Read + Drop> WordLines<R> {
    /// The words of what the reader has.
    pub fn new(alloc: Global, inner: R) -> WordLines<R>
        ensures { ⟦<WordLines<R> as Read>⟧.remaining result ≡ option_map word_lines (R.remaining inner) }
    {
        WordLines {
            inner,
            sieve: Some(Sieve::new(alloc)),
        }
    }

    /// All lines of what the reader has, as they are.
    pub fn all_lines(inner: R) -> WordLines<R>
        ensures { ⟦<WordLines<R> as Read>⟧.remaining result ≡ R.remaining inner }
    {
        WordLines { inner, sieve: None }
    }

    /// The inner reader, after what was read from it.
    pub fn inner(&self) -> &R {
        &self.inner
    }

    /// The lines so far that are neither words nor empty; none if it gives all lines.
    pub fn others(&self) -> Option<&Others>
        ensures { is_some result ≡ is_some self.now.sieve }
    {
        match &self.sieve {
            None => None,
            Some(sieve) => Some(sieve.others()),
        }
    }
}

impl<R: Read + Drop> Read for WordLines<R> {
    ghost remaining = { λ s. remaining_by s.sieve (R.remaining s.inner) };

    fn read(&mut self, buf: &mut [u8]) -> Result<usize> {
        match &mut self.sieve {
            None => self.inner.read(buf),
            Some(sieve) => sieve.read(&mut self.inner, buf),
        }
    }
}
