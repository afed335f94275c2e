//! Slips that run through a whole sheet: all of them that a record may have, and the record without one.
//!
//! A line that is not read may be an event whose `>` is missing, or the same slip may be on each line from one on: places whose row and column are
//! interchanged, places that are one square off, small letters for capitals, capitals for blanks, the name of the other player. [`sheet_slips`] lists them.
//! If a text is not a record, its first `>` may be too many on the line for which it is none, or the place of a play may not be written there:
//! [`bad_slips`] lists that. [`without_slip`] gives the events of the record without one of all these slips.
#![tactic(auto)]

mod as_events;
mod bad_listing;
mod begins;
mod blanks;
mod listing;
mod mending;
mod places;
mod readings;
mod righting;
mod running;
mod slips;
mod squares;
mod undoing;
mod weights;

pub use bad_listing::bad_slips;
pub use listing::sheet_slips;
pub use mending::mended_text;
pub use righting::changes;
pub use slips::{RunningSlip, SheetSlip, Way};
pub use undoing::without_slip;
pub use weights::weight_of;
