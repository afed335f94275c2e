//! Outputs that are written whole or not at all.
#![tactic(auto)]

mod names;
mod outputs;

pub use names::{FileNumbers, file_numbers, is_same_file};
pub use outputs::OutputFile;
