//! The lines of a text and the fields of a line, cut off one by one, and the numbers that digits write.
//!
//! A line ends at LF or at the end of the text; one CR at its end is dropped, and a byte order mark at the front of the text is
//! ignored. Fields are separated by runs of spaces and tabs.
#![tactic(auto)]

mod fields;
mod lines;
mod numerals;

pub use fields::{Field, find_blank, find_filled, next_field};
pub use lines::{Cut, Lines, cut_line, without_mark};
pub use numerals::numeral;
