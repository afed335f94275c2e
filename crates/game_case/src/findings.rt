//! What is found of the game of a record, without a report.

use engine_stages::GameFault;

/// What is found of the game of a record.
#[derive(Clone, Copy, Debug, PartialEq, Eq)]
pub enum Finding {
    /// The record has no event.
    NoGame,
    /// Every event is allowed, and some deal of the tiles yields every rack.
    Legal {
        /// Whether the game has ended.
        complete: bool,
    },
    /// Some event is not allowed, or no deal of the tiles yields every rack.
    Illegal {
        /// The line of the first such event, or the line up to which the racks are impossible.
        line: u32,
        /// Why.
        fault: GameFault,
    },
    /// Every event is allowed, and neither a deal nor a proof that there is none was found.
    Unsettled,
}
