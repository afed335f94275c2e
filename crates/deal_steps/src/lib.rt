//! The steps of a game as its racks see them, when racks fit them, and the bounds of a deal.
//!
//! A step is what an event of a record does with tiles: a turn that lays, tries, throws or keeps them, a play that is
//! taken back, or a last rack. A deal gives both racks before each step and the tiles that the step throws.
#![tactic(auto)]

mod bounding;
mod deals;
mod faults;
mod fitting;
mod known;
mod laws;
mod piles;
mod steps;

pub use bounding::{first_bound, shown_at};
pub use deals::{Deal, Held, Racks};
pub use faults::DealBound;
pub use fitting::{fits, fits_at, follows, follows_to, used_by};
pub use known::Known;
pub use laws::{law_of_epochs, law_of_fitting};
pub use piles::{greater, joined, without};
pub use steps::{Act, Motion, Step, opener};
