//! The plays of one line of a board, found by a walk over a lexicon of rotated paths (Steven Gordon, A Faster Scrabble
//! Move Generation Algorithm, 1994).
//!
//! A line is 15 cells, each with an old tile or free; a free cell has the letters that may be put there and whether it is an
//! anchor. From each anchor a walk goes to the left and then, through the mark, to the right. At a free square it goes through the
//! letters with which a string of the lexicon continues, each once, and tries those that the square and the rack allow. It takes no
//! memory.
//!
//! What is done with a move is not known here: [`walk_anchor`] gives each to a [`Taker`].
#![tactic(auto)]

mod branches;
mod cells;
mod laws;
mod takers;
mod tiles;
mod walking;

pub use cells::{Cell, Open};
pub use laws::law_of_line_moves;
pub use takers::{ENTRIES, Taker};
pub use walking::walk_anchor;
