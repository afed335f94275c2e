//! What may help a person, besides the line that says that an input is bad: clauses in plain words.

mod hinting;
mod items;
mod limits;
mod racks;

pub use hinting::{Hint, Known};
