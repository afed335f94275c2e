//! What is found of a draft, and what its next line is about, as trees: the contract of each call says that its tree is exactly the object that `specs/` defines
//! for its value.
//!
//! [`fill_tree`] is the object of `audit` with the numbers that were put in, [`next_tree`] what the next line is about, and [`bad_draft_tree`] the first fault of
//! a draft.
#![tactic(auto)]

mod faults;
mod fills;
mod nexts;

pub use faults::bad_draft_tree;
pub use fills::fill_tree;
pub use nexts::next_tree;
