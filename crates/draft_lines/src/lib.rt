//! What is printed of a draft: a rendering of the values of `draft_answers`, which computes nothing.
//!
//! [`push_fill`] writes how many numbers were put in and what `audit` prints of the sheet, [`push_next`] what the next line is about, and
//! [`push_draft_fault`] the first fault of a draft.
#![tactic(auto)]

mod faults;
mod fills;
mod nexts;

pub use faults::push_draft_fault;
pub use fills::push_fill;
pub use nexts::push_next;
