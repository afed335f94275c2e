//! Faults by their names, as programs read them.
//!
//! A [`FaultName`] is the name of a fault of a game or of a record: its text is the one that reports print, and by [`law_of_names`] each name is read
//! again from its text. A line of a report has the name of a fault and what comes after it in one text. [`NamedFault`] and [`NamedInput`] have them
//! separately, and the contracts of the calls that make them say that the text of the report is made of these parts.
#![tactic(auto)]

mod games;
mod inputs;
mod laws;
mod named;
mod names;

pub use games::named_game_fault;
pub use inputs::{NamedInput, named_input};
pub use laws::law_of_names;
pub use named::NamedFault;
pub use names::FaultName;
