//! What explains the verdict on a record, or one of its lines, as a value: the facts that a director needs, each with its numbers, squares and
//! lines; the words of the play with what each square adds; and the board before it. Also how the text of an explanation begins.
//!
//! A rendering of it, as text or as JSON, computes nothing about the game and adds nothing up.
#![tactic(auto)]

mod events;
mod explaining;
mod judging;
mod lines;
mod openings;
mod passing;
mod sheets;

pub use events::{Explanation, Picture, Shown, explain_event};
pub use explaining::explain;
pub use openings::{place_of_fault, push_opening};
pub use passing::passed_by;
