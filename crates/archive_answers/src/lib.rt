//! What `archive` tells of each game, as plain data.
//!
//! [`report_game`] reads the record of a game and makes an [`ArchivedGame`]: the case of its text, its likely repair and what its page shows if these are
//! asked for, and the fields of its line, all of the same text; [`unread_game`] makes that of a file that could not be read. [`row_of`] is what the index
//! of the pages shows of it, and [`RunLines`] makes its line and keeps how the program ends after the lines of a run. The lines, the pages and the index
//! are written from these values, and all that they tell is found here.
#![tactic(auto)]

mod asked;
mod exits;
mod games;
mod likely;
mod lines;
mod rows;
mod runs;
mod sheets;
mod words;

pub use asked::Asked;
pub use games::{ArchivedGame, report_game, unread_game};
pub use rows::{GameRow, RowPlayer, row_of};
pub use runs::RunLines;
pub use sheets::{GameSheet, PlainGame};
pub use words::RowWords;
