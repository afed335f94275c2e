//! Facts about racks.

use gcg_read::Seat;
use ref_tiles::{Counts, Kind};

/// Which tiles leave a rack.
#[derive(Drop)]
pub enum Leaving {
    /// None, or none that is known.
    Nothing,
    /// A play puts them on the board.
    Plays(Counts),
    /// They are exchanged.
    Exchanges(Counts),
}

/// What a line shows of a rack.
#[derive(Drop)]
pub struct RackLine {
    /// The line.
    pub line: u32,
    /// The tiles that it shows.
    pub shown: Counts,
    /// Which of them leave the rack.
    pub leaves: Leaving,
}

/// The number of tiles of a kind that a line shows.
#[derive(Drop)]
pub struct KindLine {
    /// The line.
    pub line: u32,
    /// The player whose rack it shows.
    pub player: Seat,
    /// The number of tiles of the kind that it shows on the rack.
    pub shown: usize,
    /// The number of them that it plays.
    pub played: usize,
}

/// What is wrong with what the lines show of a rack or of a kind of tile.
#[derive(Drop)]
pub enum RackFact {
    /// A line shows a whole rack, and not as many tiles of a kind as the lines before it leave on that rack.
    LeftOver {
        /// The player whose rack it is.
        player: Seat,
        /// The last of the lines before.
        before: u32,
        /// The tiles that are left on the rack after it.
        remaining: Counts,
        /// The line that shows a whole rack.
        after: u32,
        /// A kind of which it shows too few.
        kind: Kind,
        /// The number of them that it shows.
        has: usize,
        /// The number of them that are left.
        had: usize,
    },
    /// A rack would have to hold more tiles than it has.
    TooBig {
        /// The player whose rack it is.
        player: Seat,
        /// The number of tiles that it has.
        size: usize,
        /// The tiles that it would have to hold.
        needed: Counts,
        /// The lines that show them.
        lines: Vec<RackLine>,
    },
    /// There would have to be more tiles of a kind than the game has.
    TilesShort {
        /// The kind.
        kind: Kind,
        /// The number of them in the game.
        all: usize,
        /// The number that there would have to be.
        needed: usize,
        /// The number of these that are on the board.
        laid: usize,
        /// The number on the first player's rack.
        first: usize,
        /// The number on the second player's rack.
        second: usize,
        /// The lines that show them.
        lines: Vec<KindLine>,
    },
}
