//! What is between the markup of a page: numbers, tiles and plays as texts.
ghost use Rattle.std.specs.Prelude.{◌≡◌, decimal, IfOk};
ghost use Rattle.std.specs.Fmt.{signed_decimal};
ghost use Rattle.gcg_write.specs.Fields as fields;

use gcg_write::{play_text, tiles_text};
use ref_board::{Dir, Square};
use ref_tiles::{Counts, Symbol};
use std::alloc::{AllocError, Global};
use text_decimals::push_number;

/// A number as text.
pub fn number_text(alloc: Global, number: i64) -> Result<Vec<u8>, AllocError>
    ensures { IfOk result (λ text. text.items ≡ signed_decimal number) }
{
    let mut text = Vec::new(alloc);
    push_number(&mut text, number)?;
    Ok(text)
}

/// How many there are of something, as text.
pub fn count_text(alloc: Global, many: usize) -> Result<Vec<u8>, AllocError>
    ensures { IfOk result (λ text. text.items ≡ decimal many) }
{
    let mut text = Vec::new(alloc);
    push_number(&mut text, many)?;
    Ok(text)
}

/// Tiles as text.
pub fn counts_text(alloc: Global, tiles: &Counts) -> Result<Vec<u8>, AllocError>
    ensures { IfOk result (λ text. text.items ≡ fields.tiles_text tiles.now) }
{
    let mut text = Vec::new(alloc);
    match tiles_text(tiles, &mut text) {
        Ok(()) => Ok(text),
        Err(_) => Err(AllocError),
    }
}

/// A play as text.
pub fn spot_text(
    alloc: Global,
    at: Square,
    dir: Dir,
    word: &[Symbol],
) -> Result<Vec<u8>, AllocError>
    ensures { IfOk result (λ text. text.items ≡ fields.play_text at dir word.now) }
{
    let mut text = Vec::new(alloc);
    match play_text(at, dir, word, &mut text) {
        Ok(()) => Ok(text),
        Err(_) => Err(AllocError),
    }
}
