//! What `compare` finds of two sheets as a tree, for programs.
//!
//! [`comparison_tree`] takes the answer of `compare_answers`; its contract says that the tree is exactly the object that `specs/` defines for it.
#![tactic(auto)]

mod answers;
mod choices;
mod differences;
mod ends;
mod names;
mod repairs;

pub use answers::comparison_tree;
