//! Explanations as trees, for programs.
//!
//! [`explained_tree`] takes the value that `explain_answers` makes; its contract says that the tree is exactly the object that `specs/` defines for it. It does not ask the engine, add numbers or look at a record. The verdict comes first, then the line and each fact with its name
//! and its numbers, and then the words of the play and the board.
#![tactic(auto)]

mod boards;
mod explained;
mod fact_lines;
mod fact_parts;
mod facts;
mod words;

pub use explained::explained_tree;
