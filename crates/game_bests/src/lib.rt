//! What is noted of one event besides its line: the best play of a turn, and the words of a play that are not in the list.
//!
//! [`best_of_turn`] gives the best play by the game before the event. [`unlisted_of`] copies the words that are not in a list. Both give values of
//! plain data, which a judged game and a score sheet keep for each event. By [`law_of_bests`] such a best play is the one in the report of
//! `judge`.
#![tactic(auto)]

mod bests;
mod laws;

pub use bests::{BestPlay, TurnBest, best_of_turn};
pub use laws::law_of_bests;
