//! Changes with which a record has a correction.

use crate::listed::Listed;

/// A change with which a record has a correction.
#[derive(Drop)]
pub(crate) struct Candidate {
    /// The change.
    pub listed: Listed,
    /// What it costs.
    pub cost: u128,
}

/// The changes with which a record has a correction, from a place on.
#[derive(Drop)]
pub(crate) struct Candidates {
    /// The changes.
    pub found: Vec<Candidate>,
    /// The first place that was tried.
    pub from: usize,
}
