//! A tile on its square.
ghost use Rattle.std.specs.Prelude.{◌≡◌};

use ref_board::Square;
use ref_tiles::Tile;

/// A new tile and the square that it is put on.
#[derive(Clone, Copy, Debug, PartialEq, Eq)]
pub struct Placed {
    /// Where the tile is put.
    pub square: Square,
    /// What is put there.
    pub tile: Tile,
}

/// A blank that stands for A, on 1A.
impl Default for Placed {
    ghost use Rattle.ref_tiles.specs.Faces.{blank_tile, letter_a};

    ghost is_default = { λ placed. (placed.square ≡ 0) × (placed.tile ≡ blank_tile letter_a) };

    fn default() -> Placed {
        Placed {
            square: Square::default(),
            tile: Tile::default(),
        }
    }
}
