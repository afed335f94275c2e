//! The board: squares, lines, tiles on squares, and runs of tiles.
#![tactic(auto)]

mod anchors;
mod boards;
mod directions;
mod squares;

pub use anchors::{follows_tile, precedes_tile, touches};
pub use boards::Board;
pub use directions::Dir;
pub use ref_tiles::SIDE;
pub use squares::Square;
