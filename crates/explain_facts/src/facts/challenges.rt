//! Facts about a play that is taken back or challenged.

use game_turns::SpelledWord;
use gcg_read::Seat;

/// What is said about a play that is taken back or challenged.
#[derive(Drop)]
pub enum ChallengeFact {
    /// The play before stands, since each of its words is in the word list.
    PlayStands {
        /// The line of the play.
        line: u32,
        /// Its words.
        words: Vec<SpelledWord>,
    },
    /// The challenge of the play before succeeds, since none of its words is in the word list.
    NoWordListed {
        /// The line of the play.
        line: u32,
        /// Its words.
        words: Vec<SpelledWord>,
    },
    /// The play before is the other player's, so it cannot be taken back.
    OthersPlay {
        /// The line of the play.
        line: u32,
        /// The player of the event.
        player: Seat,
        /// The player of the play.
        other: Seat,
    },
    /// The play before is the other player's, so its bonus cannot go to the player of the event.
    OthersBonus {
        /// The line of the play.
        line: u32,
        /// The player of the event.
        player: Seat,
        /// The player of the play.
        other: Seat,
    },
    /// No play comes right before the event, so there is nothing to take back.
    NothingToTakeBack {
        /// Whether the event is the first.
        is_first: bool,
    },
    /// No play comes right before the event, so there is nothing to challenge.
    NothingToChallenge {
        /// Whether the event is the first.
        is_first: bool,
    },
    /// Which bonus a challenge gives.
    Bonus {
        /// The number of points for each challenged word in the list.
        unit: usize,
        /// The number of words of the play that are in the list.
        listed: usize,
        /// The amounts that are allowed: for one word, for two, up to all of these.
        amounts: Vec<usize>,
        /// The bonus that is written.
        written: i32,
    },
}
