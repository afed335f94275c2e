//! What is written of a reply: as words for people, or as an object for programs.
//!
//! [`in_words`] gives the report of a reply, and the text for the output that the command names; [`as_object`] gives its object, and the same
//! text, and [`in_object`] writes both. All of it is in the reply: nothing is found here. [`each_in_words`] gives a line for each word of a ruling.
#![tactic(auto)]

mod audits;
mod boards;
mod bodies;
mod case_objects;
mod cases;
mod compared;
mod drafted;
mod encodings;
mod explained;
mod made;
mod objects;
mod repaired;
mod ruled;
mod words;

pub use bodies::Body;
pub use objects::{as_object, in_object, refusal_object};
pub use ruled::each_in_words;
pub use words::in_words;
