//! Facts about a play with another tile in one place.

use game_turns::SpelledWord;
use ref_board::Square;
use ref_tiles::{Counts, Kind};

/// What is said about a play with another tile in one place: tiles that are not on the rack, one tile that was read as another, and a blank as a letter.
#[derive(Drop)]
pub enum ReadingFact {
    /// With a letter of the play as a blank, or a blank as a letter, it has the score that is written.
    AsBlank {
        /// The square.
        square: Square,
        /// The letter of the play there, as it is written: small for a blank.
        letter: u8,
        /// What it is read as: the same letter, small for a blank.
        read: u8,
        /// The score of the play with it, which is the score that is written.
        score: i32,
    },
    /// A play uses more tiles of a kind than the line shows on the rack.
    NotOnRack {
        /// The kind.
        kind: Kind,
        /// The number of them that the play uses.
        played: usize,
        /// The number of them that the line shows.
        has: usize,
        /// The rack that the line shows.
        rack: Counts,
    },
    /// With another tile on one square a play uses only tiles of the rack that the line shows, and each of its words is in the word list.
    Misread {
        /// The square.
        square: Square,
        /// The letter of the play there, as it is written: small for a blank.
        letter: u8,
        /// What it is read as: another letter, small for a blank.
        read: u8,
        /// The words of the play with it.
        words: Vec<SpelledWord>,
        /// The score of the play with it.
        score: i32,
        /// The score that is written.
        written: i32,
    },
}
