//! The text of a sheet with other scores and totals: only these numbers are changed, so titles, notes, blanks and line ends stay as
//! they were.
//!
//! [`push_with_numbers`] writes it, and [`law_of_numbers`] says that it reads as the record with these numbers.
#![tactic(auto)]

mod cutting;
mod laws;
mod numbers;
mod raw_lines;
mod writing;

pub use cutting::{Last, last_field};
pub use laws::law_of_numbers;
pub use raw_lines::{RawLine, cut_raw_line, is_event_line, push_mark};
pub use writing::{push_line_with, push_with_numbers};
