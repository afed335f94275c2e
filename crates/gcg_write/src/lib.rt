//! The writer of game records: the normal form of the GCG format, in which each record has one text.
//!
//! The format is the Poslfit GCG specification, <https://www.poslfit.com/scrabble/gcg/>, in the profile that the reader,
//! `gcg_read`, accepts. The normal form has a line `#player1 NICK FULL` and a line `#player2 NICK FULL` for the players who have a
//! nickname, and then a line `>NICK: RACK EVENT SCORE TOTAL` for each event.
#![tactic(auto)]

mod fields;
mod laws;
mod lines;
mod writing;

pub use laws::{law_of_other_points, law_of_round_trip};
pub use writing::{
    NoMemory, event_text, kind_text, line_text, play_text, score_text, tiles_text, write,
};
