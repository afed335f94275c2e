//! Every legal, valid play that a rack allows on a board, each exactly once (Steven Gordon, A Faster Scrabble Move
//! Generation Algorithm, 1994).
#![tactic(auto)]

mod anchors;
mod closing;
mod entries;
mod fronts;
mod generating;
mod laws;
mod lines;
mod passing;
mod places;
mod reporting;
mod spots;
mod starts;
mod stretches;
mod tallies;

pub use gen_sinks::{All, Best, NoMemory, Sink, Top};
pub use generating::generate;
pub use laws::law_of_moves;
