//! The lines of a record's text that its reader passes over although they look like events, and the lines that no record can have.
//!
//! A line that begins with neither `>` nor `#` is ignored by the reader of records. Of these lines [`unread_lines`] lists those that would be events
//! but for what they begin with, and those that have a position or a code and two numbers. [`faulty_lines`] lists each line that begins with `>` and
//! is no event, where the reader names only the first.
#![tactic(auto)]

mod faulty;
mod laws;
mod lines;
mod moves;
mod readings;
mod reasons;

pub use faulty::faulty_lines;
pub use laws::law_of_unread_lines;
pub use lines::{UnreadLine, unread_lines};
pub use reasons::UnreadWhy;
