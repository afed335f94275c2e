//! What two changes repair.

use gcg_read::Events;
use repair_single::{Listed, Repair};

/// A first change of a record, and the record that it makes.
#[derive(Drop)]
pub struct Head {
    /// The change.
    pub first: Listed,
    /// The events with it, with the numbers of the sheet.
    pub made: Events,
}

/// Two changes of a record after which it is a legal game, once its numbers are corrected.
#[derive(Drop)]
pub struct Pair {
    /// The number of the first change among the heads.
    pub head: usize,
    /// The repair of the record that the first change makes.
    pub then: Repair,
    /// What both cost.
    pub cost: u128,
}

/// Pairs of changes that repair a record.
#[derive(Drop)]
pub struct Pairs {
    /// The first changes.
    pub heads: Vec<Head>,
    /// The pairs, those that cost least first.
    pub reported: Vec<Pair>,
}
