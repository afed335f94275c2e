//! What is wrong with a rack.

use std::fmt;

/// The greatest number of tiles that a rack has.
const MOST_TILES: usize = 7;

/// Why a text is not a rack.
#[derive(Clone, Copy)]
pub enum RackHint<'a> {
    /// It has no tile.
    Empty,
    /// It has a character that is not a tile: the first one.
    NoTile(char),
    /// It has this many tiles.
    TooMany(usize),
    /// It is this text, which would be a rack in capitals.
    NotInCapitals(&'a str),
}

impl<'a> RackHint<'a> {
    /// What is wrong with a text that is not a rack.
    pub fn of(rack: &'a str) -> RackHint<'a> {
        let mut tiles: usize = 0;
        for tile in rack.chars() {
            if !is_tile(tile.to_ascii_uppercase()) {
                return RackHint::NoTile(tile);
            }
            tiles = tiles.saturating_add(1);
        }
        if tiles == 0 {
            RackHint::Empty
        } else if tiles > MOST_TILES {
            RackHint::TooMany(tiles)
        } else {
            RackHint::NotInCapitals(rack)
        }
    }
}

/// Whether a character is a tile of a rack.
fn is_tile(tile: char) -> bool {
    tile.is_ascii_uppercase() || tile == '?'
}

impl fmt::Display for RackHint<'_> {
    fn fmt<W: fmt::Write>(&self, f: &mut fmt::Formatter<W>) -> fmt::Result {
        match self {
            RackHint::Empty => write!(f, "the rack has no tile, and a rack has 1 to {MOST_TILES}"),
            RackHint::NoTile(tile) => {
                write!(
                    f,
                    "{tile:?} in the rack is not a tile: tiles are A to Z, and ? for a blank"
                )
            }
            RackHint::TooMany(tiles) => {
                write!(
                    f,
                    "the rack has {tiles} tiles, and a rack has 1 to {MOST_TILES}"
                )
            }
            RackHint::NotInCapitals(rack) => {
                write!(f, "the tiles of a rack are capitals: perhaps ")?;
                write_capitals(rack, f)?;
                write!(f, " is meant")
            }
        }
    }
}

/// Writes a text, its letters as capitals.
fn write_capitals<W: fmt::Write>(text: &str, f: &mut fmt::Formatter<W>) -> fmt::Result {
    for letter in text.chars() {
        write!(f, "{}", letter.to_ascii_uppercase())?;
    }
    Ok(())
}
