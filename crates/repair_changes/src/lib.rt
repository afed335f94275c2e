//! A single change of a record: a slip of the pen on one line, where it is, what it costs, and the record without it.
#![tactic(auto)]

mod applying;
mod counting;
mod laws;
mod numbers;
mod righting;
mod slip_copies;
mod slips;
mod splices;
mod spots;
mod weights;

pub use applying::{apply, lines_there, right_events, wrong_events};
pub use counting::{one_less, one_more};
pub use laws::{law_of_changes, law_of_differences};
pub use numbers::{leaves_out, numbers_with, numbers_with_both};
pub use slip_copies::copy_slip;
pub use slips::{
    Change, CodeSlip, Misread, MissingLine, PositionSlip, RightPlay, Slip, SpellingSlip, TileSlip,
    TilesOf,
};
pub use spots::{Spot, spot_of};
pub use weights::{MOST_ALIKE, NUMBER, WORD, WORDS_OF_SLIPS, remaining_cost, weight_of};
