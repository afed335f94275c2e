//! The items that a rules text states, and those that it leaves out.

use ref_tiles::row_of_digits;
use std::fmt;
use text_lines::{Lines, next_field, without_mark};

/// An item of a rules text.
#[derive(Clone, Copy, PartialEq, Eq)]
pub enum Item {
    /// The tiles of a kind.
    Tile(char),
    /// A row of the board, counted from 1.
    Row(usize),
    /// A parameter.
    Number(&'static str),
}

/// How many kinds of tiles there are.
const TILES: usize = 27;

/// How many rows the board has.
const ROWS: usize = 15;

/// The parameters.
const NUMBERS: [&str; 5] = [
    "bonus",
    "exchange_min",
    "zero_limit",
    "challenge_unit",
    "time_step",
];

/// How many items a rules text has.
const ITEMS: usize = TILES + ROWS + NUMBERS.len();

impl Item {
    /// The item of this number: the tiles A to Z and `?`, then the rows, then the parameters.
    fn at(number: usize) -> Option<Item> {
        if let Some(tile) = b"ABCDEFGHIJKLMNOPQRSTUVWXYZ?".get(number) {
            return Some(Item::Tile(char::from(*tile)));
        }
        let following = number.checked_sub(TILES)?;
        if following < ROWS {
            return Some(Item::Row(following + 1));
        }
        let name = NUMBERS.get(following - ROWS)?;
        Some(Item::Number(*name))
    }

    /// The item that a line of a rules text is about.
    pub fn of_line(line: &[u8]) -> Option<Item> {
        if line.starts_with(b"#") {
            return None;
        }
        let first = next_field(line)?;
        if first.bytes == b"tile".as_slice() {
            return match next_field(first.after)?.bytes {
                [tile] => Some(Item::Tile(char::from(*tile))),
                _ => None,
            };
        }
        if first.bytes == b"row".as_slice() {
            let row = row_of_digits(next_field(first.after)?.bytes)?;
            return Some(Item::Row(row + 1));
        }
        let name = NUMBERS.iter().find(|name| name.as_bytes() == first.bytes)?;
        Some(Item::Number(*name))
    }

    /// Whether a line of a rules text is about the item.
    fn is_stated(self, text: &[u8]) -> bool {
        Lines::of(without_mark(text)).any(|line| Item::of_line(line) == Some(self))
    }
}

impl fmt::Display for Item {
    fn fmt<W: fmt::Write>(&self, f: &mut fmt::Formatter<W>) -> fmt::Result {
        match self {
            Item::Tile(tile) => write!(f, "tile {tile}"),
            Item::Row(row) => write!(f, "row {row}"),
            Item::Number(name) => write!(f, "{name}"),
        }
    }
}

/// Writes the items that a rules text leaves out, with commas between them.
pub fn write_missing<W: fmt::Write>(text: &[u8], f: &mut fmt::Formatter<W>) -> fmt::Result {
    let mut between = "";
    for number in 0..ITEMS {
        match Item::at(number) {
            Some(item) if !item.is_stated(text) => {
                write!(f, "{between}{item}")?;
                between = ", ";
            }
            _ => {}
        }
    }
    Ok(())
}
