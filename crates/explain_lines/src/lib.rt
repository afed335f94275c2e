//! What explains the verdict on a record, or one of its lines, in plain words for a director.
//!
//! [`push_explanation`] writes the verdict line, the line as it is in the file, what is wrong with it, the words of a play with what each
//! square adds, and the board before the line; [`push_reason`] writes only what is wrong, from a value that it is given. All of it is in the
//! value that `explain_answers` makes; here it is only put into words. That the sentences say it well is a matter of tests.
#![tactic(auto)]

mod boards;
mod cases;
mod challenges;
mod deals;
mod facts;
mod names;
mod orders;
mod play_faults;
mod racks;
mod readings;
mod rulings;
mod scores;
mod spelling;
mod tiles;
mod totals;
mod turns;
mod wholes;
mod words;

pub use cases::{push_explanation, push_reason};
