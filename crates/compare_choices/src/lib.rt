//! Two players' sheets of one game: where they differ, and the record that the rules support.
//!
//! [`Sheets`] are two sheets line by line. [`compare`] tries each choice of their lines and racks. Of those that are a legal game once their numbers
//! are corrected, it finds the one with which the least is wrong on both sheets.
#![tactic(auto)]

mod best;
mod comparing;
mod corrections;
mod costs;
mod finds;
mod known;
mod laws;
mod results;
mod seats;
mod settling;
mod sheets;
mod trials;

pub use best::Best;
pub use comparing::{Comparison, Stop, compare};
pub use corrections::Stopped;
pub use finds::Find;
pub use laws::{law_of_bests, law_of_own_sheets};
pub use results::{LastTotals, Results, have_other_racks, results_of};
pub use seats::in_seats_of;
pub use sheets::Sheets;
pub use trials::Trial;
