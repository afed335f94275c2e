//! Readers and writers that know the first bytes of what went through them, and why the last read or write failed.
#![tactic(auto)]

mod fronts;
mod reading;
mod reasons;
mod writing;

pub use fronts::Front;
pub use reading::WatchedRead;
pub use reasons::Reason;
pub use writing::WatchedWrite;
