//! One walk over a record: what each event did, with the numbers that the rules give.
//!
//! [`walk_and_correct`] takes the events of a record one by one and gives each its right score and total, up to the first event
//! that is refused whatever its numbers are. It keeps a [`Row`] for each event that it took. [`walk_as_written`] does the same and
//! leaves the events as they are written.
#![tactic(auto)]

mod auditing;
mod numbers;
mod refusals;
mod rows;
mod taking;
mod totals;
mod walking;
mod wrong_lines;

pub use auditing::{Audited, audit};
pub use numbers::{Numbers, numbers_in, numbers_of, renumber};
pub use refusals::{Refusal, Stop};
pub use rows::Row;
pub use walking::{Walk, walk_and_correct, walk_as_written};
