//! What the other repairs of a line have where they differ from the first.

use explain_parts::{Part, say};
use ref_tiles::Kind;
use repair_changes::{CodeSlip, Misread, MissingLine, Slip, SpellingSlip, TileSlip};
use std::alloc::AllocError;

/// Appends a letter.
fn push_letter(text: &mut Vec<u8>, byte: u8) -> Result<(), AllocError> {
    say(text, &[Part::Letter(byte)])
}

/// Appends the letter of a text that differs.
fn push_spelling(text: &mut Vec<u8>, slip: &SpellingSlip) -> Result<(), AllocError> {
    match slip {
        SpellingSlip::OtherTile { right, .. } | SpellingSlip::OtherLetter { right, .. } => {
            push_letter(text, right.byte())
        }
        SpellingSlip::Letter { right, .. } | SpellingSlip::MissingLetter { right, .. } => {
            push_letter(text, Kind::Letter(*right).byte())
        }
        _ => Ok(()),
    }
}

/// Appends the tile that differs.
fn push_tile(text: &mut Vec<u8>, slip: &TileSlip) -> Result<(), AllocError> {
    match slip {
        TileSlip::Other { right, .. } => push_letter(text, right.byte()),
        TileSlip::Extra { tile } | TileSlip::Missing { tile } => push_letter(text, tile.byte()),
    }
}

/// Appends the tile that is misread twice, as it should be.
fn push_misread(text: &mut Vec<u8>, slip: &Misread) -> Result<(), AllocError> {
    match slip {
        Misread::Played { right, .. } => push_letter(text, Kind::Letter(*right).byte()),
        Misread::Exchanged { right, .. } => push_letter(text, right.byte()),
    }
}

/// Appends a number of tiles.
fn push_tile_count(text: &mut Vec<u8>, number: u8) -> Result<(), AllocError> {
    say(text, &[Part::Many(number as usize)])
}

/// Appends in what a slip differs from those that it is like: a letter, a tile, or how many tiles are exchanged.
pub(crate) fn push_difference(text: &mut Vec<u8>, slip: &Slip) -> Result<(), AllocError> {
    match slip {
        Slip::Spelling(slip) => push_spelling(text, slip),
        Slip::Tile { slip, .. } => push_tile(text, slip),
        Slip::Misread(slip) => push_misread(text, slip),
        Slip::Number(number) | Slip::Code(CodeSlip::Exchange(number)) => {
            push_tile_count(text, *number)
        }
        Slip::Missing(MissingLine::Exchange { number, .. }) => push_tile_count(text, *number),
        _ => Ok(()),
    }
}
