//! Which plays of a search are wanted.

use ref_play::Play;
use ref_tiles::Counts;
use repair_changes::one_more;

/// Which plays are wanted.
#[derive(Clone, Copy)]
pub(crate) enum Asked {
    /// Those with exactly these tiles.
    Tiles(Counts),
    /// Those with this score that do not have exactly these tiles.
    Score {
        /// The score.
        score: i32,
        /// The tiles.
        not_of: Counts,
    },
}

/// The tiles that a play lays.
fn tiles_of(play: &Play) -> Counts {
    let mut tiles = Counts::new();
    for placed in &play.tiles {
        tiles = one_more(&tiles, placed.tile.kind);
    }
    tiles
}

impl Asked {
    /// Whether a play with its score is wanted.
    pub(crate) fn has(&self, play: &Play, scores: i32) -> bool {
        match self {
            Asked::Tiles(tiles) => tiles_of(play) == *tiles,
            Asked::Score { score, not_of } => scores == *score && tiles_of(play) != *not_of,
        }
    }
}
