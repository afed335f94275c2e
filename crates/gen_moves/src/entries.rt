//! The tiles that the entries of a move stand for.
ghost use Rattle.std.specs.Prelude.{◌≡◌};
ghost use Rattle.gen_moves.specs.LineTiles.{tile_of_entry, line_tiles};

use ref_board::SIDE;
use ref_tiles::{Letter, Tile};

/// The new tile on each place of a line, or none.
pub type LineTiles = [Option<Tile>; SIDE];

/// The tile of an entry: none for 0, otherwise 1 + 2 * letter for a letter, with A as 0, plus one for a blank.
fn tile_of(entry: u8) -> Option<Tile>
    ensures { result ≡ tile_of_entry entry }
{
    if entry == 0 {
        return None;
    }
    let letter = Letter::new((entry - 1) / 2)?;
    Some(if (entry - 1) % 2 == 1 {
        Tile::of_blank(letter)
    } else {
        Tile::of_letter(letter)
    })
}

/// The new tiles of a line that the entries of a move stand for.
pub fn line_tiles(entries: &[u8; SIDE]) -> LineTiles
    ensures { result ≡ line_tiles entries.now }
{
    let mut tiles = [None; SIDE];
    for place in 0..SIDE {
        tiles[place] = tile_of(entries[place]);
    }
    tiles
}
