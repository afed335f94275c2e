//! What `repair` says of a record, in plain words for a director.
//!
//! [`push_repairs`] writes the verdict line and, if the record is illegal or the text is none, the repairs: where each is, what should be there, what is, and
//! its evidence. All of it is in the answer that `repair_answers` makes; here it is only put into words. [`push_likely`] writes the likely repair of a record,
//! and [`push_amount`] a bonus or a penalty that would explain its numbers, in the same words.
#![tactic(auto)]

mod bad_records;
mod chains;
mod changes;
mod choices;
mod evidence;
mod letters;
mod likely;
mod lines;
mod missing;
mod names;
mod plays;
mod sheet_slips;
mod sheets;
mod slips;
mod words;

pub use changes::push_change;
pub use choices::push_choice;
pub use likely::{push_amount, push_likely, push_likely_change, push_likely_numbers};
pub use lines::push_repairs;
