//! Drafts of game records: an event line of a draft may lack its total, or its score and its total.
//!
//! [`read_draft`] reads one: the record that the text is with `+0` and `0` in the place of the numbers that are missing, and which these are.
//! [`law_of_drafts`] says that each record is a draft that means itself, and that no line of a draft has two readings.
#![tactic(auto)]

mod amiss;
mod completing;
mod drafts;
mod lacks;
mod laws;
mod missing;
mod noting;

pub use amiss::Amiss;
pub use completing::push_completed;
pub use drafts::{Draft, read_draft};
pub use lacks::lacks_in;
pub use laws::law_of_drafts;
pub use missing::Missing;
pub use noting::amiss_on;
