//! The commands that write the report of one call of the engine: about a game, a board or a lexicon.
#![tactic(auto)]

mod games;
mod lexicons;

pub use games::{board, judge, tidy, top};
pub use lexicons::{build, check, convert};
