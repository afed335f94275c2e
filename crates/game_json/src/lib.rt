//! A judged game and the best plays as trees, made only from their values: the contract of each call says that its tree is exactly the object that `specs/`
//! defines for the value.
#![tactic(auto)]

mod events;
mod games;
mod plays;
mod tops;

pub use games::judged_tree;
pub use tops::found_tree;
