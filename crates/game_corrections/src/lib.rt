//! The correction of a score sheet: the same events, with the scores and totals that the rules give.
#![tactic(auto)]

mod last_totals;
mod laws;
mod mending;
mod points;
mod reported_sums;
mod standings;
mod wrong_numbers;

pub use last_totals::last_total;
pub use laws::law_of_corrections;
pub use mending::{mend, take};
pub use points::law_of_points;
pub use reported_sums::is_reported;
pub use standings::{Standing, standing_in, standing_of};
pub use wrong_numbers::{WrongNumber, due, had_before, is_right_sum, known_total};
