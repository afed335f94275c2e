//! The text of a sheet with a repair: the lines of its change are replaced, each line has its right numbers, and nothing else is
//! changed, so titles, notes, blanks and line ends stay as they were.
//!
//! [`sheet_to_keep`] gives the text of a case by the choice among its repairs: with the repair that is chosen, without a slip of the whole sheet, or with only
//! its numbers corrected. It is read again, and given only if it reads as the events with their right numbers. [`can_be_written`] says whether each player
//! who has a line has a nickname.
#![tactic(auto)]

mod chosen;
mod comparing;
mod event_lines;
mod keeping;
mod reading;
mod repaired;
mod replacing;
mod running;
mod sheets;
mod writing;

pub use chosen::sheet_to_keep;
pub use keeping::says_each_line;
pub use sheets::can_be_without;
pub use writing::can_be_written;
