//! Plays.
ghost use Rattle.std.specs.Prelude.{◌≡◌, IsTrue};
ghost use Rattle.ref_play.specs.Placements.{is_play};

use crate::placed::Placed;
use crate::texts::shortened;
use arrayvec::ArrayVec;
use ref_board::Dir;

/// The maximum number of tiles of a play: a full rack.
pub const RACK: usize = 7;

/// A play: one to seven new tiles, in rising order on one line.
#[derive(Drop)]
pub struct Play {
    /// The direction of the line.
    pub dir: Dir,
    /// The new tiles, in rising order.
    pub tiles: ArrayVec<Placed, RACK>,
    pub ghost proper: { IsTrue (is_play dir tiles.items) },
}

impl Play {
    /// A copy of the play.
    pub fn copy(&self) -> Play
        ensures { result ≡ self.now }
    {
        Play {
            dir: self.dir,
            tiles: shortened(&self.tiles),
        }
    }
}

/// A blank that stands for A, on 1A.
impl Default for Play {
    ghost use Rattle.std.specs.Prelude.{◌≡◌, [], ◌∷◌};
    ghost use Rattle.ref_play.specs.declared.placed.Placed.{Placed};
    ghost use Rattle.ref_tiles.specs.Faces.{blank_tile, letter_a};
    ghost use Rattle.ref_board.specs.declared.directions.Dir.TheVariants.{Across};

    ghost is_default = { λ play. (play.dir ≡ Across) × (play.tiles.items ≡ record { square = 0; tile = blank_tile letter_a } ∷ []) };

    #[tactic(auto, unfolding(crate::specs::Placements::is_play))]
    fn default() -> Play {
        let mut tiles = ArrayVec::new();
        tiles.push(Placed::default());
        Play {
            dir: Dir::Across,
            tiles,
        }
    }
}
