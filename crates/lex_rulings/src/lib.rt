//! What a list says of words that are challenged: whether all of them are in it, and whether each is.
//!
//! [`AskedWord::of`] takes a word as it is given, and [`ruling_on`] rules on words by a list. [`push_capitals`] makes capitals of the letters of a text.
#![tactic(auto)]

mod asked;
mod rulings;

pub use asked::{AskedWord, is_word, push_capitals};
pub use rulings::{Ruling, ruling_on};
