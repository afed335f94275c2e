//! Changes of plays that a sheet may need: a play that is missing, and a play that is a different one altogether.
//!
//! [`plays_for`] looks for them with the generator of plays, by the tiles that are on no line and by the racks that lines state. Nothing
//! relies on it: a caller tries each change like any other.
#![tactic(auto)]

mod asking;
mod finding;
mod lacking;
mod missing;
mod replayed;
mod searching;
mod writing;

pub use finding::plays_for;
