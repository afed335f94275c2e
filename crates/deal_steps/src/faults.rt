//! The bounds of a deal.

use ref_tiles::Kind;

/// A bound that the racks of a record exceed, so no racks can be dealt for it.
#[derive(Clone, Copy, Debug, PartialEq, Eq)]
pub enum DealBound {
    /// By this line a player has shown more tiles than came to the rack.
    RackTooBig {
        /// The line, counted from 1.
        line: u32,
    },
    /// By this line the players have shown more tiles of a kind than the game has.
    TilesShort {
        /// The line, counted from 1.
        line: u32,
        /// The first such kind, in the order A to Z and then blanks.
        kind: Kind,
    },
}
