//! What `compare` finds of two sheets, as a value.
//!
//! [`answer_comparison`] makes a [`ComparisonAnswer`] of two records: how they differ, what the rules say of each difference, whether they agree, and the
//! merged record. `compare_lines` puts it into words, and `compare_json` into an object: these read only the value.
#![tactic(auto)]

mod agreements;
mod answers;
mod changed;
mod copying;
mod counts;
mod ends;
mod found;
mod furthest;
mod lines;
mod pairs;
mod places;
mod racks;
mod scores;

pub use agreements::Agreement;
pub use answers::{ComparisonAnswer, answer_comparison};
pub use counts::ItemCounts;
pub use ends::GameEnd;
pub use found::WhyNotMerged;
pub use lines::{LinesAnswer, OtherLine};
pub use pairs::PairAnswer;
pub use racks::{OwnRack, RacksAnswer};
