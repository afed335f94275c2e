//! The answer of `repair` as a tree, for programs.
//!
//! [`answer_tree`] takes the answer that `repair_answers` makes; its contract says that the tree is exactly the object that `specs/` defines for it.
//! [`bad_tree`] does the same for a text that is not a record. Neither asks the engine or tries changes.
#![tactic(auto)]

mod answers;
mod bad_records;
mod chains;
mod changes;
mod evidence;
mod pairs;
mod sheets;
mod slip_names;

pub use answers::answer_tree;
pub use bad_records::bad_tree;
pub use changes::{single_tree, tree_by_events};
pub use sheets::whole_tree;
