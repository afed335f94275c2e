//! A repair.

use crate::listed::Listed;
use crate::remains::Remains;
use gcg_read::Events;

/// A repair of a record: a single change after which it is a legal game, once its numbers are corrected.
#[derive(Drop)]
pub struct Repair {
    /// The change.
    pub listed: Listed,
    /// The events with the change, and with the scores and totals that the rules give.
    pub right: Events,
    /// What stays wrong on the sheet.
    pub remains: Remains,
}
