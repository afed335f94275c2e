//! The word list that decides which words are valid: from bytes to a set of words, or the first fault; and the rotated paths of its
//! words, which a lexicon stands for.
//!
//! A text has one word on a line, 2 to 15 letters A to Z in either case, in any order. A line ends at LF or at the end of the text;
//! one CR at a line's end is dropped, and a byte order mark at the front of the text is ignored. Repeats count once, and empty
//! lines are ignored.
#![tactic(auto)]

mod faults;
mod laws;
mod lists;
mod reading;
mod word_sets;
mod words;

pub use faults::{ListFault, ListWhy};
pub use laws::{law_of_lists, law_of_paths, law_of_splits};
pub use lists::WordList;
pub use reading::{MAX_BYTES, MAX_WORDS};
