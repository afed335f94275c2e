//! What a walk keeps about an event.

use crate::numbers::Numbers;
use game_turns::Machine;

/// An event that the rules allow with its right numbers, and what it did.
#[derive(Drop)]
pub struct Row {
    /// Its numbers as they are written.
    pub written: Numbers,
    /// Its numbers as the rules give them.
    pub right: Numbers,
    /// The game after it: the board, what the players have, and for a play its tiles, its words, its score and whether it stands.
    pub following: Machine,
    /// Whether each word that it leaves on the board is in the word list.
    pub listed: bool,
}
