//! The text of a sheet with notes: a line `#note` is inserted after the line of an event, and nothing else is changed.
//!
//! [`push_with_notes`] writes it. [`law_of_notes`] says that it gives the same record, and that without the inserted lines it is
//! the sheet as it was.
#![tactic(auto)]

mod laws;
mod writing;

pub use laws::law_of_notes;
pub use writing::push_with_notes;
