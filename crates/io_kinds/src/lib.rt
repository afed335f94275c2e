//! What a file that was given as a game record and has no event seems to be, by its first bytes.
#![tactic(auto)]

mod kinds;

pub use kinds::{FileKind, has_events};
