//! The parts of a sentence.

use gcg_write::tiles_text;
use ref_board::{Dir, Square};
use ref_tiles::{Counts, Kind};
use std::alloc::AllocError;
use text_decimals::push_number;

/// A part of a sentence.
#[derive(Clone, Copy)]
pub enum Part<'a> {
    /// Words.
    Say(&'a str),
    /// Bytes of the record, such as a nickname.
    Raw(&'a [u8]),
    /// A number of points.
    Points(i32),
    /// A difference of points.
    Difference(i64),
    /// How many there are of something.
    Many(usize),
    /// A number of things, with the word for one of them.
    Things(usize, &'a str),
    /// The number of a line.
    Line(u32),
    /// A square by its row and its column.
    At(Square),
    /// Where a play begins: a row and a column across, a column and a row down.
    Spot(Square, Dir),
    /// A letter as it is written.
    Letter(u8),
    /// A kind of tile: a letter or `?`.
    Kind(Kind),
    /// Tiles, A to Z and then `?`.
    Tiles(&'a Counts),
}

impl<'a> From<&'a str> for Part<'a> {
    fn from(words: &'a str) -> Part<'a> {
        Part::Say(words)
    }
}

impl<'a> From<&'a [u8]> for Part<'a> {
    fn from(bytes: &'a [u8]) -> Part<'a> {
        Part::Raw(bytes)
    }
}

/// A number of points.
impl<'a> From<i32> for Part<'a> {
    fn from(points: i32) -> Part<'a> {
        Part::Points(points)
    }
}

/// A difference of points.
impl<'a> From<i64> for Part<'a> {
    fn from(points: i64) -> Part<'a> {
        Part::Difference(points)
    }
}

impl<'a> From<usize> for Part<'a> {
    fn from(many: usize) -> Part<'a> {
        Part::Many(many)
    }
}

/// A number of things, with the word for one of them.
impl<'a> From<(usize, &'a str)> for Part<'a> {
    fn from(things: (usize, &'a str)) -> Part<'a> {
        Part::Things(things.0, things.1)
    }
}

/// The number of a line.
impl<'a> From<u32> for Part<'a> {
    fn from(line: u32) -> Part<'a> {
        Part::Line(line)
    }
}

impl<'a> From<Square> for Part<'a> {
    fn from(square: Square) -> Part<'a> {
        Part::At(square)
    }
}

/// Where a play begins, and in which direction it goes.
impl<'a> From<(Square, Dir)> for Part<'a> {
    fn from(spot: (Square, Dir)) -> Part<'a> {
        Part::Spot(spot.0, spot.1)
    }
}

/// A letter as it is written.
impl<'a> From<u8> for Part<'a> {
    fn from(letter: u8) -> Part<'a> {
        Part::Letter(letter)
    }
}

impl<'a> From<Kind> for Part<'a> {
    fn from(kind: Kind) -> Part<'a> {
        Part::Kind(kind)
    }
}

impl<'a> From<&'a Counts> for Part<'a> {
    fn from(tiles: &'a Counts) -> Part<'a> {
        Part::Tiles(tiles)
    }
}

/// Appends a sentence to a text of bytes: `say!(text; nick, " had ", points, " on line ", line, ".\n")`. Each part is what its type says: words, bytes of
/// the record, a number, a number of things with the word for one of them, a square, where a play begins, a letter, a kind of tile, or tiles. A name in a
/// record need not be UTF-8, so no format text can have it.
#[macro_export]
macro_rules! say {
    ($text:expr; $($part:expr),+ $(,)?) => {
        $crate::say($text, &[$($crate::Part::from($part)),+])
    };
}

/// Appends the parts of a sentence, one after the other.
pub fn say(text: &mut Vec<u8>, parts: &[Part<'_>]) -> Result<(), AllocError> {
    for part in parts {
        push_part(text, part)?;
    }
    Ok(())
}

/// Appends the number of a line, between what is said of it.
pub fn say_of_line<'a>(
    text: &mut Vec<u8>,
    front: &'a str,
    line: u32,
    end: &'a str,
) -> Result<(), AllocError> {
    say(text, &[Part::Say(front), Part::Line(line), Part::Say(end)])
}

/// Appends a part of a sentence.
fn push_part(text: &mut Vec<u8>, part: &Part<'_>) -> Result<(), AllocError> {
    match part {
        Part::Say(words) => text.extend_from_slice(words.as_bytes()),
        Part::Raw(bytes) => text.extend_from_slice(bytes),
        Part::Points(points) => push_number(text, *points),
        Part::Difference(points) => push_number(text, *points),
        Part::Many(many) => push_number(text, *many),
        Part::Things(many, one) => push_things(text, *many, one),
        Part::Line(line) => push_number(text, *line),
        Part::At(square) => push_square(text, *square),
        Part::Spot(square, dir) => push_spot(text, *square, *dir),
        Part::Letter(byte) => push_byte(text, *byte),
        Part::Kind(kind) => push_byte(text, kind.byte()),
        Part::Tiles(tiles) => push_tiles(text, tiles),
    }
}

/// Appends a number of things, with an s after the word unless there is exactly one.
fn push_things(text: &mut Vec<u8>, many: usize, one: &str) -> Result<(), AllocError> {
    push_number(text, many)?;
    push_byte(text, b' ')?;
    text.extend_from_slice(one.as_bytes())?;
    text.extend_from_slice(if many == 1 { b"" } else { b"s" })
}

/// Appends a byte.
fn push_byte(text: &mut Vec<u8>, byte: u8) -> Result<(), AllocError> {
    text.push(byte)?;
    Ok(())
}

/// Appends the letter of a column.
fn push_column(text: &mut Vec<u8>, square: Square) -> Result<(), AllocError> {
    text.push(b'A' + square.column() as u8)?;
    Ok(())
}

/// Appends a square, as `8H`.
fn push_square(text: &mut Vec<u8>, square: Square) -> Result<(), AllocError> {
    push_number(text, square.row() + 1)?;
    push_column(text, square)
}

/// Appends where a play begins, as `8H across` or `H8 down`.
fn push_spot(text: &mut Vec<u8>, square: Square, dir: Dir) -> Result<(), AllocError> {
    match dir {
        Dir::Across => {
            push_square(text, square)?;
            text.extend_from_slice(b" across")
        }
        Dir::Down => {
            push_column(text, square)?;
            push_number(text, square.row() + 1)?;
            text.extend_from_slice(b" down")
        }
    }
}

/// Appends tiles, or that there are none.
fn push_tiles(text: &mut Vec<u8>, tiles: &Counts) -> Result<(), AllocError> {
    if tiles.total() == 0 {
        return text.extend_from_slice(b"no tile");
    }
    match tiles_text(tiles, text) {
        Ok(()) => Ok(()),
        Err(_) => Err(AllocError),
    }
}
