//! Choices of two sheets' lines that do not make a game, and the single changes with which they do.
//!
//! If no choice of the lines of two sheets makes a game, [`repaired_choices`] takes those that go furthest, and finds the first repairs of each. The search for
//! these choices is not complete, and nothing is claimed about it: what is said of a choice is proved of the choice itself.
#![tactic(auto)]

mod ahead;
mod best;
mod events;
mod finding;
mod furthest;
mod repaired;
mod same;

pub use finding::repaired_choices;
pub use repaired::{BestRepair, RepairedChoice, RepairedChoices};
