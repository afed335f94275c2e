//! What is said about a record as a whole.

use game_turns::SpelledWord;
use gcg_read::Seat;

/// A play that stands with words that are not in the word list.
#[derive(Drop)]
pub struct UnlistedPlay {
    /// Its line.
    pub line: u32,
    /// Its player.
    pub player: Seat,
    /// Those of its words that are not in the list.
    pub words: Vec<SpelledWord>,
}

/// A rack that is shown in part.
#[derive(Drop)]
pub struct RackPart {
    /// The line of the turn.
    pub line: u32,
    /// The player whose rack it is.
    pub player: Seat,
    /// The number of tiles that the line shows.
    pub shown: usize,
    /// The number of tiles that the player has.
    pub has: usize,
}

/// What is said about a record as a whole.
#[derive(Drop)]
pub enum GameFact {
    /// The record has no event.
    NoEvent,
    /// The rules allow every event, and a deal of the tiles gives the players every rack that is shown.
    Legal,
    /// The rules allow every event; neither such a deal was found, nor a proof that there is none.
    Unsettled,
    /// Which plays stand with words that are not in the word list.
    Unlisted {
        /// These plays, in the order of the record.
        plays: Vec<UnlistedPlay>,
    },
    /// Ten words or more of the plays that stand are not in the word list, so that it may be another list.
    OtherList,
    /// On which turns no rack is shown, and on which only a part of it.
    RacksHidden {
        /// The lines of those that show no rack.
        lines: Vec<u32>,
        /// The racks that are shown in part.
        parts: Vec<RackPart>,
        /// The number of turns, with a rack or without.
        turns: usize,
    },
}
