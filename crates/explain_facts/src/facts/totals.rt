//! Facts about a total or a penalty for time.

use gcg_read::Seat;

/// What is said about a total or a penalty for time.
#[derive(Drop)]
pub enum TotalFact {
    /// The sum that makes a total.
    Wrong {
        /// The player.
        player: Seat,
        /// The total before the event.
        had: i32,
        /// The score of the event.
        score: i32,
        /// Their sum.
        right: i32,
        /// The total that is written.
        written: i32,
    },
    /// The written total leaves out the score of the event.
    LeavesOutOwn,
    /// The written total leaves out the score of an earlier event.
    LeavesOut {
        /// Its line.
        line: u32,
        /// Its score.
        score: i32,
    },
    /// A penalty for time is a negative multiple of a number of points.
    TimeStep {
        /// That number.
        step: usize,
        /// The penalty that is written.
        written: i32,
    },
    /// The player already has a penalty for time.
    SecondTime {
        /// The player.
        player: Seat,
        /// The line of the earlier penalty.
        line: u32,
    },
}
