//! The score sheet of a record as a value of plain data, whose contract says what it is.
//!
//! [`score_sheet`] gives a [`ScoreSheet`]: a row for each event with what its numbers should be, its best play and its words that are not in the
//! list, the boards after the events with their new tiles marked, what is said of each board, and how many points more the best plays would have
//! given. So code that shows a sheet, in whatever form, calls no engine and adds no numbers.
#![tactic(auto)]

mod boards;
mod gains;
mod pictures;
mod positions;
mod rows;
mod sheets;
mod sums;
mod unders;

pub use boards::{is_taken_back, pictures_of, shown_at};
pub use gains::{gain_in, given_by};
pub use pictures::Picture;
pub use positions::{LaidPlay, PlayedTile, Position, positions_of};
pub use rows::{SheetRow, rows_of};
pub use sheets::{ScoreSheet, score_sheet};
pub use sums::gains_of;
