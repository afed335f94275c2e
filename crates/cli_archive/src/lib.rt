//! The commands on many games: `archive` and `index`.
#![tactic(auto)]

mod archiving;
mod done;
mod indexing;
mod names;
mod pages;
mod progress;
mod read_lines;
mod runs;

pub use archiving::archive;
pub use indexing::index;
