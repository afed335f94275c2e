//! The parts from which sentences for a director are made, and [`say!`], which writes one.
#![tactic(auto)]

mod parts;

pub use parts::{Part, say, say_of_line};
