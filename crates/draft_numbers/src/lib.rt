//! The numbers of a draft that are written: which of them are wrong, the lines of a draft with these alone, and what the lines lack after a change.
//!
//! A number that is missing counts nowhere: it is neither right nor wrong. [`wrong_written`] compares the others with the right ones;
//! [`push_event_text`] writes an event with the numbers that are there. [`law_of_whole_drafts`] says that a record is the draft in which nothing is missing.
//! [`lacks_with`] applies a change to what the lines lack: a missing line lacks both numbers. [`numbers_to_go_by`] counts the numbers that are written.
#![tactic(auto)]

mod counting;
mod lacking;
mod laws;
mod numbering;
mod texts;
mod totals;

pub use counting::{count_written, numbers_to_go_by};
pub use lacking::lacks_with;
pub use laws::law_of_whole_drafts;
pub use numbering::wrong_written;
pub use texts::push_event_text;
