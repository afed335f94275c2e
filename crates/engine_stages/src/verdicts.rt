//! What the referee answers.
use deal_cuts::Earlier;
use game_turns::RuleFault;
use ref_tiles::Kind;

/// Why a game is not legal.
#[derive(Clone, Copy, Debug, PartialEq, Eq)]
pub enum GameFault {
    /// The rules do not allow the event.
    Rule(RuleFault),
    /// By this line a player has shown more tiles than have come to the rack.
    RackTooBig,
    /// By this line the players have shown more tiles of this kind than the game has.
    TilesShort(Kind),
    /// No deal of the tiles yields the racks up to the event on this line, that one included.
    NoDeal {
        /// What is known of the racks before this event.
        earlier: Earlier,
    },
}

/// What the referee answers.
#[derive(Clone, Copy, Debug, PartialEq, Eq)]
pub enum Verdict {
    /// Every event is allowed, and some deal of the tiles yields every rack.
    Legal {
        /// Whether the game has ended.
        complete: bool,
    },
    /// Some event is not allowed, or no deal of the tiles yields every rack.
    Illegal {
        /// The line of the first such event, or the line by which the racks are impossible.
        line: u32,
        /// Why.
        fault: GameFault,
    },
    /// Every event is allowed, and it was not found out whether some deal yields every rack.
    Unsettled,
    /// The word list has a fault.
    BadList,
    /// The lexicon file has a fault, or is not that of the word list.
    BadFile,
    /// The record has a fault.
    BadRecord,
    /// What was requested is done.
    Done,
    /// The rack is not 1 to 7 of A to Z and `?`.
    BadRack,
    /// The rules text has a fault.
    BadRules,
    /// The record has no event on the given line or after it.
    BadLine,
}
