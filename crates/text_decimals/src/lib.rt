//! Numbers in texts.
//!
//! [`push_number`] appends a number of any type of integer to a text, in decimal.
#![tactic(auto)]

mod numbers;

pub use numbers::push_number;
