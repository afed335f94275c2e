//! Tiles on the board, with the letters that blanks stand for.
ghost use Rattle.std.specs.Prelude.{◌≡◌, IsTrue};
ghost use Rattle.ref_tiles.specs.Tiles.{can_show};

use crate::kinds::Kind;
use crate::letters::Letter;

/// A tile on the board: its kind, and the letter that it shows there.
#[derive(Clone, Copy, Debug, PartialEq, Eq, PartialOrd, Ord, Hash)]
pub struct Tile {
    /// What the tile is: a letter or a blank.
    pub kind: Kind,
    /// The letter that it shows: the kind's own, or any letter if the kind is a blank.
    pub shown: Letter,
    pub ghost proper: { IsTrue (can_show kind shown) },
}

impl Tile {
    ghost use Rattle.ref_tiles.specs.Faces.{letter_tile, blank_tile};

    /// The tile that bears a letter.
    pub fn of_letter(letter: Letter) -> Tile
        ensures { result ≡ letter_tile letter }
    {
        Tile {
            kind: Kind::Letter(letter),
            shown: letter,
        }
    }

    /// A blank that stands for a letter.
    pub fn of_blank(shown: Letter) -> Tile
        ensures { result ≡ blank_tile shown }
    {
        Tile {
            kind: Kind::Blank,
            shown,
        }
    }
}

/// A blank that stands for A.
impl Default for Tile {
    ghost use Rattle.ref_tiles.specs.Faces.{blank_tile, letter_a};

    ghost is_default = { λ tile. tile ≡ blank_tile letter_a };

    fn default() -> Tile {
        Tile {
            kind: Kind::Blank,
            shown: Letter { index: 0 },
        }
    }
}
