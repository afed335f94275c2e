//! An audit, a board and the ruling on words as trees: the contract of each call says that its tree is exactly the object that `specs/` defines for its value.
#![tactic(auto)]

mod audits;
mod boards;
mod rulings;

pub use audits::{audit_fields, audit_tree};
pub use boards::board_tree;
pub use rulings::{no_word_tree, ruling_tree};
