//! The best plays that a rack allows on a board.
#![tactic(auto)]

mod annotating;
mod crossing;
mod following;
mod latest;
mod searching;
mod tops;

pub use annotating::annotate;
pub use crossing::cross_sets;
pub use following::Follow;
pub use latest::LatestBests;
pub use searching::best_plays;
pub use tops::{MANY, top, top_many};
