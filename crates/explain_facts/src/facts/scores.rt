//! Facts about a score.

use explain_clues::Spot;
use gcg_read::Seat;
use ref_tiles::Counts;

/// What is said about a score: the right one, and where the written one would be right.
#[derive(Drop)]
pub enum ScoreFact {
    /// The score of a play.
    Play {
        /// The right score.
        right: i32,
        /// The score that is written.
        written: i32,
    },
    /// The score of a pass.
    Pass {
        /// The right score.
        right: i32,
        /// The score that is written.
        written: i32,
    },
    /// The score of an exchange.
    Exchange {
        /// The right score.
        right: i32,
        /// The score that is written.
        written: i32,
    },
    /// The score of a withdrawal: it takes off the points of the play again.
    Withdrawal {
        /// The right score.
        right: i32,
        /// The score that is written.
        written: i32,
    },
    /// The score of a last rack.
    LastRack {
        /// The player who gets or loses the points.
        player: Seat,
        /// Whether the player is out and gets twice the points; if not, the points are lost.
        is_doubled: bool,
        /// The tiles of the rack.
        tiles: Counts,
        /// The right score.
        right: i32,
        /// The score that is written.
        written: i32,
    },
    /// The score of any other event.
    Other {
        /// The right score.
        right: i32,
        /// The score that is written.
        written: i32,
    },
    /// The same letters have the written score elsewhere, and there the rules allow the record to its end.
    Elsewhere {
        /// The score that is written.
        written: i32,
        /// Where they have it: the first places.
        spots: Vec<Spot>,
        /// The number of more places.
        others: usize,
    },
    /// With the right score the total that is written is right.
    TotalFits {
        /// The right score.
        score: i32,
        /// The total.
        total: i32,
    },
}
