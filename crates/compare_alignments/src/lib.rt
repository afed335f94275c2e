//! Two sheets of one game, line by line, and the records that can be made from both.
//!
//! [`align`] aligns the events of two sheets: those of one event of the game in a pair, and a line that the other sheet lacks
//! alone. [`merge`] makes a record from both: if the lines of a pair say different things, a choice takes one of them.
#![tactic(auto)]

mod agreeing;
mod aligning;
mod choices;
mod costs;
mod fronts;
mod lacking;
mod laws;
mod merging;
mod pairs;
mod racks;
mod seats;
mod tables;

pub use agreeing::agree;
pub use aligning::align;
pub use choices::{
    MOST_ITEMS, chosen_side, count_choices, count_items, count_other_racks, count_racks,
    count_varied, count_with_own_racks, is_chosen,
};
pub use lacking::{Lacks, lack_at, merge_lacks};
pub use laws::{law_of_itself, law_of_merging};
pub use merging::{NumbersOf, merge, own_side};
pub use pairs::{Pair, Side};
pub use seats::in_other_seats;
