//! The single changes of a record, listed: all that may be wrong at a place, by the line, by those before and after it and by the
//! game there.
#![tactic(auto)]

mod adding;
mod amounts;
mod laws;
mod laying;
mod lines;
mod listing;
mod misreadings;
mod missing;
mod positions;
mod rests;
mod spellings;
mod tiles;

pub use laws::{law_of_commonest, law_of_layings, law_of_shifts, law_of_slips};
pub use listing::slips_at;
pub use rests::{is_rack, rest_tiles};
