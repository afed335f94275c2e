//! What takes the plays that a search finds: all of them, a number of the best, or the best one.
#![tactic(auto)]

mod all;
mod laws;
mod placing;
mod sinks;
mod top;

pub use all::All;
pub use laws::law_of_first;
pub use sinks::{NoMemory, Sink};
pub use top::{Best, Top};
