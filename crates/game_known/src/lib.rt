//! Best plays that are known: a table that keeps what a search found for a board and a rack, so that it need not search there
//! again.
//!
//! [`KnownBests`] has a number of places that never changes. [`Beside`] goes along with a game and gives what is said of the best play of each event:
//! what is known without a search, and otherwise by a search, which is kept. Everything that is kept is proved for its board and its rack, and these
//! are compared in full, so what is said of a turn does not depend on the table.
#![tactic(auto)]

mod besides;
mod copying;
mod known;
mod placing;
mod turns;

pub use besides::Beside;
pub use known::KnownBests;
