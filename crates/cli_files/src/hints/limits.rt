//! The limits of the numbers of a rules text.

use crate::hints::items::Item;
use std::fmt;
use text_lines::{Lines, next_field, numeral, without_mark};

/// The greatest number of digits of a number.
const MAX_DIGITS: usize = 3;

/// A number of a rules text that is outside its limits.
#[derive(Clone, Copy)]
pub enum Limit {
    /// There are this many tiles in all.
    Tiles(u32),
    /// A tile has this many points.
    Points { tile: char, points: u32 },
    /// A parameter is this.
    Number { name: &'static str, number: u32 },
}

impl Limit {
    /// The first number of a rules text without other faults that is outside its limits: that of all tiles, or the first by line.
    pub fn first(text: &[u8]) -> Option<Limit> {
        let tiles = all_tiles(text);
        if tiles < 14 || tiles > 200 {
            return Some(Limit::Tiles(tiles));
        }
        for line in Lines::of(without_mark(text)) {
            if let Some(limit) = Limit::on_line(line) {
                return Some(limit);
            }
        }
        None
    }

    /// What is outside its limits on a line.
    fn on_line(line: &[u8]) -> Option<Limit> {
        match Item::of_line(line)? {
            Item::Tile(tile) => {
                let points = number_at(3, line)?;
                (points > 99).then_some(Limit::Points { tile, points })
            }
            Item::Row(_) => None,
            Item::Number(name) => {
                let number = number_at(1, line)?;
                (!is_within(name, number)).then_some(Limit::Number { name, number })
            }
        }
    }
}

/// Whether a parameter may be this: the bonus may be any number that a rules text can have.
fn is_within(name: &str, number: u32) -> bool {
    name == "bonus" || 1 <= number && number <= 99
}

/// How many tiles a rules text has in all.
fn all_tiles(text: &[u8]) -> u32 {
    let mut tiles: u32 = 0;
    for line in Lines::of(without_mark(text)) {
        if let Some(Item::Tile(_)) = Item::of_line(line) {
            tiles = tiles.saturating_add(number_at(2, line).unwrap_or(0));
        }
    }
    tiles
}

/// The number in the field of a line that has `place` fields before it.
fn number_at(place: usize, line: &[u8]) -> Option<u32> {
    let mut field = next_field(line)?;
    for _ in 0..place {
        field = next_field(field.after)?;
    }
    numeral(MAX_DIGITS, field.bytes)
}

impl fmt::Display for Limit {
    fn fmt<W: fmt::Write>(&self, f: &mut fmt::Formatter<W>) -> fmt::Result {
        match self {
            Limit::Tiles(tiles) => {
                write!(
                    f,
                    "the rules text has {tiles} tiles together, and may have 14 to 200"
                )
            }
            Limit::Points { tile, points } => {
                write!(
                    f,
                    "tile {tile} has {points} points in the rules text, and may have 0 to 99"
                )
            }
            Limit::Number { name, number } => {
                write!(
                    f,
                    "{name} is {number} in the rules text, and may be 1 to 99"
                )
            }
        }
    }
}
