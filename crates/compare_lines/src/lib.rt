//! What `compare` says of two sheets, in plain words for a director.
//!
//! [`push_comparison`] writes each difference with its two lines and what the rules say of them, and the verdict on the merged record. All of it is in
//! the answer that `compare_answers` makes; here it is only put into words.
#![tactic(auto)]

mod choices;
mod differences;
mod lines;
mod racks;
mod repaired;
mod results;
mod written;

pub use choices::push_choice;
pub use lines::push_comparison;
