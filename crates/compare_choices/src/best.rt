//! The best choice.

use gcg_read::Events;

/// The record that a choice makes, which is a game.
#[derive(Drop)]
pub struct Best {
    /// The choice.
    pub choice: usize,
    /// Its events with their right numbers.
    pub right: Events,
    /// What it costs.
    pub cost: u128,
    /// How many plays stand with a word that is not in the list.
    pub unlisted: usize,
    /// Whether the last racks are in.
    pub complete: bool,
}
