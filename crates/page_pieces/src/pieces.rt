//! A piece of a page.

use gcg_about::Encoding;
use ref_board::{Dir, Square};
use ref_tiles::{Counts, Symbol};

/// A piece of a page. That a piece of markup is text of the program follows from its type, `&'static str`; no clause says so.
#[derive(Clone, Copy)]
pub enum Piece<'a> {
    /// Markup, or text without a sign that means something in markup. It is part of the program, so nothing from a record is such a
    /// piece.
    Markup(&'static str),
    /// Text of any origin.
    Text(&'a [u8]),
    /// Bytes of a record, by its encoding.
    Recorded(&'a [u8], Encoding),
    /// A number.
    Number(i64),
    /// How many there are of something.
    Many(usize),
    /// Tiles, A to Z and then `?`.
    Tiles(&'a Counts),
    /// A play: where it begins, in which direction it goes, and its text.
    Play(Square, Dir, &'a [Symbol]),
}
