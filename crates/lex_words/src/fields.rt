//! A reader that gives the first fields of the lines of another one.
ghost use Rattle.std.specs.Prelude.{◌≡◌, ◌<◌, ◌≤◌, length, take, option_map, IfOk, OnErr};
ghost use Rattle.std.specs.Io.{ReadsAtMost};
ghost use Rattle.std.specs.Io.KnownBytes.{Consumes, IsAtEnd, Keeps, ReadConsumes};
ghost use Rattle.lex_words.specs.Fields.{first_fields};
ghost use Rattle.lex_words.specs.Places.{fields_from, remaining_by};

use crate::places::{Place, keep_fields};
use std::io::{Error, ErrorKind, Read, Result};

/// The greatest number of bytes that one read asks for.
const CHUNK: usize = 8192;

/// A reader whose text has the first field of each line in place of the line: what is before its first space or tab. A line that begins with `#`
/// becomes an empty one, so that lines keep their numbers. On request it gives the lines as they are. Each read gives the next bytes, none only at
/// the end, and a read that fails takes none of them.
#[derive(Drop)]
pub struct FirstFields<R> {
    inner: R,
    /// Where it is in a line; nowhere if it gives whole lines.
    place: Option<Place>,
}

/// The result of reading a chunk.
#[derive(Clone, Copy, Debug)]
struct Chunk {
    /// How many bytes were read.
    read: usize,
    /// How many of them were kept.
    kept: usize,
}

impl<R: Read + Drop> FirstFields<R> {
    /// The first fields of what the reader has.
    pub fn new(inner: R) -> FirstFields<R>
        ensures { ⟦<FirstFields<R> as Read>⟧.remaining result ≡ option_map first_fields (R.remaining inner) }
    {
        FirstFields {
            inner,
            place: Some(Place::Beginning),
        }
    }

    /// The lines of what the reader has, as they are.
    pub fn whole_lines(inner: R) -> FirstFields<R>
        ensures { ⟦<FirstFields<R> as Read>⟧.remaining result ≡ R.remaining inner }
    {
        FirstFields { inner, place: None }
    }

    /// The inner reader, after what was read from it.
    pub fn inner(&self) -> &R
        ensures { remaining_by self.now.place (R.remaining result.now) ≡ ⟦<FirstFields<R> as Read>⟧.remaining self.now }
    {
        &self.inner
    }

    /// The inner reader, after what was read from it.
    pub fn into_inner(self) -> R
        ensures { remaining_by self.place (R.remaining result) ≡ ⟦<FirstFields<R> as Read>⟧.remaining self }
    {
        let FirstFields { inner, .. } = self;
        inner
    }
}

/// Reads a chunk once, from a place in a line on, and puts what is kept of it into the buffer.
fn read_chunk<R: Read + Drop>(
    inner: &mut R,
    place: &mut Place,
    chunk: &mut [u8],
    buf: &mut [u8],
) -> Result<Chunk>
    requires { length chunk.old ≤ length buf.old }
    ensures room { length buf.new ≡ length buf.old }
    ensures same { length chunk.new ≡ length chunk.old }
    ensures bound { IfOk result (λ c. c.kept ≤ length buf.new) }
    ensures bytes { IfOk result (λ c. Consumes (option_map (fields_from place.old) (R.remaining inner.old))
        (option_map (fields_from place.new) (R.remaining inner.new)) (take c.kept buf.new)) }
    ensures end { IfOk result (λ c. c.read ≡ 0 → 0 < length chunk.new
        → IsAtEnd (option_map (fields_from place.new) (R.remaining inner.new))) }
    ensures err { OnErr result (Keeps (option_map (fields_from place.old) (R.remaining inner.old))
        (option_map (fields_from place.new) (R.remaining inner.new))) }
{
    let read = inner.read(chunk)?;
    let kept = keep_fields(*place, &chunk[..read], buf);
    *place = kept.place;
    Ok(Chunk {
        read,
        kept: kept.len,
    })
}

/// Reads chunks, from a place in a line on, until something is kept of one, and puts that into the buffer.
fn read_fields<R: Read + Drop>(inner: &mut R, place: &mut Place, buf: &mut [u8]) -> Result<usize>
    ensures room { length buf.new ≡ length buf.old }
    ensures bound { ReadsAtMost result buf.new }
    ensures bytes { ReadConsumes (option_map (fields_from place.old) (R.remaining inner.old))
        (option_map (fields_from place.new) (R.remaining inner.new)) result buf.new }
{
    let mut chunk = [0u8; CHUNK];
    let most = buf.len().min(CHUNK);
    for _ in 0..u64::MAX {
        let Chunk { read, kept } = read_chunk(inner, place, &mut chunk[..most], buf)?;
        if read == 0 || kept > 0 {
            return Ok(kept);
        }
    }
    Err(Error::from(ErrorKind::Other))
}

impl<R: Read + Drop> Read for FirstFields<R> {
    ghost remaining = { λ s. remaining_by s.place (R.remaining s.inner) };

    fn read(&mut self, buf: &mut [u8]) -> Result<usize> {
        match &mut self.place {
            None => self.inner.read(buf),
            Some(place) => read_fields(&mut self.inner, place, buf),
        }
    }
}
