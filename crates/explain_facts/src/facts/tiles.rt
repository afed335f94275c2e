//! Facts about the number of tiles.

use gcg_read::Seat;

/// What is said about an event with more tiles than there are, or fewer.
#[derive(Drop)]
pub enum TileFact {
    /// A play uses more tiles than its player has.
    TooManyUsed {
        /// The player.
        player: Seat,
        /// The number of tiles that the play uses.
        used: usize,
        /// The number of tiles that the player has.
        has: usize,
    },
    /// An exchange is allowed only while the bag has enough tiles.
    ExchangeRefused {
        /// The number of tiles in the bag.
        bag: usize,
        /// The number that it must have.
        least: usize,
    },
    /// An exchange of more tiles than there are.
    ExchangeSize {
        /// The number of tiles that are exchanged.
        tiles: usize,
        /// The player.
        player: Seat,
        /// The number of tiles that the player has.
        has: usize,
        /// The number of tiles in the bag.
        bag: usize,
    },
    /// A last rack of more or fewer tiles than its holder has.
    LastRackSize {
        /// The number of tiles that are shown.
        shown: usize,
        /// The player whose rack it is.
        holder: Seat,
        /// The number of tiles that this player has.
        has: usize,
    },
}
