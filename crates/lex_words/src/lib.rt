//! Word lists with other things in them, read as the words alone: the first fields of the lines of a text, for lists with something after each word
//! and with remarks; and the lines of a text that are words of a list, for lists with other lines among the words.
#![tactic(auto)]

mod fields;
mod lines;
mod places;
mod reading;
mod sieves;

pub use fields::FirstFields;
pub use lines::Others;
pub use reading::WordLines;
