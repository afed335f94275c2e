//! The deals of a record that passed: the bounds that its lines exceed, the deal with which it is tried, whether a deal fits it,
//! and a search for one, or for a proof that there is none.
#![tactic(auto)]

mod bounding;
mod completing;
mod faults;
mod fitting;
mod laws;
mod needs;
mod racks;
mod recording;
mod settling;
mod steps;
mod walking;

pub use bounding::bounds;
pub use completing::{NoMemory, complete};
pub use deal_cuts::Earlier;
pub use deal_steps::{Deal, DealBound, Held, Racks};
pub use faults::{DealFault, exceeded_bound};
pub use fitting::fits;
pub use laws::{law_of_bound_lines, law_of_bounds, law_of_runs, law_of_tiles};
pub use needs::Needs;
pub use racks::{RackFinding, RackTrial, settle_racks, try_racks};
pub use recording::next_step;
pub use settling::{Settled, settle};
pub use steps::all_steps;
