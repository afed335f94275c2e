//! The board of a record, before one of its lines or after the last, as a value and as a text.
//!
//! [`place_of_line`] finds the event that a line means, [`lay_plays`] lays the plays before it, and [`board_text`] writes the board
//! that they make. It needs no word list: the only requirement on an event is that its play can be laid.
#![tactic(auto)]

mod laying;
mod marks;
mod places;
mod texts;
mod tiles;

pub use laying::{Laying, lay, lay_plays};
pub use marks::{square_mark, tile_mark};
pub use places::place_of_line;
pub use texts::board_text;
pub use tiles::{kinds_off, tiles_off};
