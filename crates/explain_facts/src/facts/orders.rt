//! Facts about the order of lines.

use gcg_read::Seat;

/// What may be wrong with the order of the lines: one is there twice, in the wrong place or under the wrong name, or one is missing.
#[derive(Drop)]
pub enum OrderFact {
    /// The line before says the same as this one, which may have been written twice by mistake.
    StandsTwice {
        /// The line before.
        line: u32,
    },
    /// With this line and the next one interchanged, the rules allow both, and every other line.
    WrongWay {
        /// This line.
        line: u32,
        /// The next one.
        next: u32,
    },
    /// A line of the other player seems to be missing: if it has no points, a pass or an exchange.
    Missing {
        /// The other player.
        player: Seat,
        /// The score of the missing line, from the next total of the other player.
        score: i32,
        /// The line before it.
        before: u32,
        /// The line after it.
        after: u32,
    },
    /// If it is a line of the other player, the rules allow the event.
    AllowedFor {
        /// The other player.
        other: Seat,
    },
}
