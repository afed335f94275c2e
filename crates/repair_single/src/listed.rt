//! A change in the list of all.

use repair_changes::Change;

/// A single change of a record, and its position in the list of all.
#[derive(Drop)]
pub struct Listed {
    /// The change.
    pub change: Change,
    /// Its number among the changes at its place, counted from 0.
    pub index: usize,
}
