//! Lexicon files and rows of boards, worked by hand, and tiles and plays from texts, that several crates of tests use.
#![tactic(auto)]

mod comparing;
mod files;
mod play_texts;
mod rows;
mod tiles;

pub use comparing::has_parts;
pub use files::{
    AT, AT_BY_NODES, AT_IT, AT_IT_BY_NODES, EMPTY, EMPTY_BY_NODES, GAD1, GAD2, count_walks, file_of,
};
pub use play_texts::{PlayText, play_text};
pub use rows::{ROWS_1_TO_7, ROWS_9_TO_11, ROWS_12_TO_15};
pub use tiles::tiles_of;
