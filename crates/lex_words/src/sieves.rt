//! A sieve that lets through the lines of a text that are words.
ghost use Rattle.std.specs.Prelude.{◌≡◌, ℕ, ◌<◌, ◌≤◌, ◌+◌, List, ◌∷◌, [], false, length, take, drop, Option, option_map, IfOk};
ghost use Rattle.std.specs.Io.{ReadsAtMost};
ghost use Rattle.std.specs.Io.KnownBytes.{Consumes, IsAtEnd, Keeps, ReadConsumes};
ghost use Rattle.lex_words.specs.Lines.{word_lines};
ghost use Rattle.lex_words.specs.Reading.{remaining_in};

use crate::lines::{Line, Others};
use std::alloc::Global;
use std::io::{Error, ErrorKind, Read, Result};

/// The greatest number of bytes that one read asks for.
const CHUNK: usize = 8192;

/// What is held back of a text of which only the lines that are words are given out.
#[derive(Drop)]
pub struct Sieve {
    /// What was read last; the first `taken` bytes of it are used.
    chunk: Vec<u8>,
    taken: usize,
    /// The line that is being read.
    line: Line,
    /// What is kept of the line before it; the first `given` bytes of it were given out.
    ready: Vec<u8>,
    given: usize,
}

impl Sieve {
    /// A sieve for a text of which nothing is read yet.
    pub fn new(alloc: Global) -> Sieve
        ensures { (remaining : Option (List ℕ)) → remaining_in result remaining ≡ option_map word_lines remaining }
    {
        Sieve {
            chunk: Vec::new(alloc),
            taken: 0,
            line: Line::first(alloc),
            ready: Vec::new(alloc),
            given: 0,
        }
    }

    /// The lines so far that are neither words nor empty.
    pub fn others(&self) -> &Others {
        self.line.others()
    }

    /// Gives out what is ready, as far as the buffer has room.
    fn give(&mut self, buf: &mut [u8]) -> usize
        ensures room { length buf.new ≡ length buf.old }
        ensures bound { result ≤ length buf.new }
        ensures bytes { (remaining : Option (List ℕ)) → Consumes (remaining_in self.old remaining) (remaining_in self.new remaining) (take result buf.new) }
        ensures none { result ≡ 0 → 0 < length buf.old → drop self.new.given self.new.ready.items ≡ [] }
    {
        let ready = rest_of(&self.ready, self.given);
        let most = ready.len().min(buf.len());
        buf[..most].copy_from_slice(&ready[..most]);
        self.given += most;
        most
    }

    /// Takes the next byte of the chunk, which is an LF.
    fn take_feed(&mut self) -> Result<()>
        requires place { self.old.taken < length self.old.chunk.items }
        requires feed { drop self.old.taken self.old.chunk.items ≡ 10 ∷ drop (self.old.taken + 1) self.old.chunk.items }
        requires ready { drop self.old.given self.old.ready.items ≡ [] }
        ensures { (remaining : Option (List ℕ)) → Keeps (remaining_in self.old remaining) (remaining_in self.new remaining) }
    {
        self.given = 0;
        self.line.end_line(&mut self.ready)?;
        self.taken += 1;
        Ok(())
    }

    /// Takes the next byte of the chunk.
    fn take_byte(&mut self, byte: u8) -> Result<()>
        requires place { self.old.taken < length self.old.chunk.items }
        requires byte { drop self.old.taken self.old.chunk.items ≡ byte ∷ drop (self.old.taken + 1) self.old.chunk.items }
        requires ready { drop self.old.given self.old.ready.items ≡ [] }
        ensures { (remaining : Option (List ℕ)) → Keeps (remaining_in self.old remaining) (remaining_in self.new remaining) }
    {
        if byte == b'\n' {
            return self.take_feed();
        }
        self.line.push(byte)?;
        self.taken += 1;
        Ok(())
    }

    /// Ends the text, and says whether something was left of it.
    fn end_text(&mut self) -> bool
        requires ready { drop self.old.given self.old.ready.items ≡ [] }
        requires chunk { drop self.old.taken self.old.chunk.items ≡ [] }
        ensures keeps { (remaining : Option (List ℕ)) → IsAtEnd remaining → Keeps (remaining_in self.old remaining) (remaining_in self.new remaining) }
        ensures end { result ≡ false → (remaining : Option (List ℕ)) → IsAtEnd remaining → IsAtEnd (remaining_in self.new remaining) }
    {
        let more = !self.line.held.is_empty();
        self.given = 0;
        self.line.end_text(&mut self.ready);
        more
    }

    /// Reads the next chunk if all of the last one is taken, and says whether the text goes on.
    fn read_chunk<R: Read + Drop>(&mut self, inner: &mut R) -> Result<bool>
        requires ready { drop self.old.given self.old.ready.items ≡ [] }
        requires chunk { drop self.old.taken self.old.chunk.items ≡ [] }
        ensures keeps { Keeps (remaining_in self.old (R.remaining inner.old)) (remaining_in self.new (R.remaining inner.new)) }
        ensures end { IfOk result (λ more. more ≡ false → IsAtEnd (remaining_in self.new (R.remaining inner.new))) }
    {
        let mut chunk = [0u8; CHUNK];
        self.chunk.clear();
        self.taken = 0;
        self.chunk.reserve(CHUNK)?;
        let read = inner.read(&mut chunk)?;
        self.chunk.extend_from_slice(&chunk[..read])?;
        if read > 0 {
            return Ok(true);
        }
        Ok(self.end_text())
    }

    /// Goes on in the text if nothing is ready, and says whether it does.
    fn step<R: Read + Drop>(&mut self, inner: &mut R) -> Result<bool>
        requires ready { drop self.old.given self.old.ready.items ≡ [] }
        ensures keeps { Keeps (remaining_in self.old (R.remaining inner.old)) (remaining_in self.new (R.remaining inner.new)) }
        ensures end { IfOk result (λ more. more ≡ false → IsAtEnd (remaining_in self.new (R.remaining inner.new))) }
    {
        match self.chunk.get(self.taken) {
            Some(byte) => {
                let byte = *byte;
                self.take_byte(byte)?;
                Ok(true)
            }
            None => self.read_chunk(inner),
        }
    }

    /// Reads on from a reader until something can be given out, and puts that into the buffer.
    pub fn read<R: Read + Drop>(&mut self, inner: &mut R, buf: &mut [u8]) -> Result<usize>
        ensures room { length buf.new ≡ length buf.old }
        ensures bound { ReadsAtMost result buf.new }
        ensures bytes { ReadConsumes (remaining_in self.old (R.remaining inner.old)) (remaining_in self.new (R.remaining inner.new)) result buf.new }
    {
        for _ in 0..u64::MAX {
            let given = self.give(buf);
            if given > 0 || buf.is_empty() {
                return Ok(given);
            }
            if !self.step(inner)? {
                return Ok(0);
            }
        }
        Err(Error::from(ErrorKind::Other))
    }
}

/// What a text has from a place on.
fn rest_of(text: &[u8], place: usize) -> &[u8]
    ensures { result.now ≡ drop place text.now }
{
    match text.get(place..) {
        Some(rest) => rest,
        None => &[],
    }
}
