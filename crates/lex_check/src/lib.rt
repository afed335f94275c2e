//! The checker of compiled lexicons: it says where a lexicon first differs from another one.
//!
//! A lexicon is a set of strings of labels. Strings are ordered label by label, the mark of a rotated word first, and a string
//! comes before all longer strings that begin with it.
//!
//! Two lexicons are walked together, from each label that one of them has to the next. That of a word list is the list of its
//! rotated paths in order: a node is a stretch of them without their first labels, and a step costs a search only if they continue
//! with more than one label.
#![tactic(auto)]

mod checks;
mod differences;
mod forks;
mod laws;
mod least;
mod meetings;
mod pairing;
mod pairs;
mod rotated;
mod rotating;
mod sorted;
mod walks;

pub use checks::{Mismatch, check, text_of};
pub use differences::{Difference, Path};
pub use laws::law_of_lexicons;
pub use pairing::pair;
pub use pairs::Checked;
pub use sorted::{SortedPaths, Stretch};
pub use std::alloc::AllocError as NoMemory;
pub use walks::check_paths;
