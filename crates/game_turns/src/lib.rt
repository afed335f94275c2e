//! The turns of a game: whether the rules allow each event of a record, and the first check that fails.
#![tactic(auto)]

mod alike;
mod amounts;
mod changes;
mod checks;
mod copying;
mod faults;
mod kinds;
mod latest;
mod laws;
mod listing;
mod machine;
mod passed;
mod playing;
mod replaying;
mod seats;
mod sides;
mod steps;
mod turns;
mod unlisted;

pub use checks::legal_play;
pub use faults::RuleFault;
pub use kinds::{is_turn, withdraws};
pub use laws::law_of_tallies;
pub use listing::all_listed;
pub use machine::Machine;
pub use passed::Passed;
pub use playing::{board_before, play_events, play_through};
pub use turns::Turn;
pub use unlisted::{SpelledWord, unlisted_of};
