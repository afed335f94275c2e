//! The calls of the engine over inputs and outputs in memory, which may fail, for the tests of whole games and of hostile use.
#![tactic(auto)]

mod calls;
mod feeds;
mod sheets;

pub use calls::{Asked, Before, Call, GameRules, Inputs, NO_INPUTS, Reads, ask};
pub use feeds::{Feed, NEVER};
pub use sheets::{Mishap, Sheet};
