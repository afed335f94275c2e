//! Repairs of a faulty record: the single changes after which it is a legal game once its numbers are corrected, the likeliest first.
//!
//! [`repairs_by`] tries each change of the list of a record, and each play that is added to it. The scores and totals of a sheet are a checksum: the
//! fewer of its numbers are wrong with a change, the likelier it is. A [`Weigher`] says which of them count: all, or those of a draft that are written.
#![tactic(auto)]

mod candidate;
mod candidates;
mod comparing;
mod correcting;
mod counting;
mod finding;
mod first_steps;
mod found;
mod had;
mod laws;
mod listed;
mod mending;
mod missing;
mod nearby;
mod outcome;
mod rack_stops;
mod remaining;
mod remains;
mod repair;
mod rooms;
mod settling;
mod sheets;
mod standing;
mod steps;
mod trying;
mod weighers;
mod with_plays;

pub use comparing::makes;
pub use finding::{repairs, repairs_by};
pub use found::Found;
pub use laws::{law_of_commonest, law_of_rack_stops, law_of_stops, law_of_whole_repairs};
pub use listed::Listed;
pub use remains::Remains;
pub use repair::Repair;
pub use sheets::on_sheet;
pub use standing::game_before;
pub use weighers::Weigher;
