//! A slip of the whole sheet that repairs a record.

use crate::numbers_alone::NumbersAlone;
use gcg_read::Events;
use repair_sheets::SheetSlip;

/// Events with their right numbers.
#[derive(Drop)]
pub(crate) struct Righted {
    /// The events.
    pub right: Events,
    /// What is wrong with them otherwise.
    pub alone: NumbersAlone,
}

/// A slip of the whole sheet without which a record is a game, as far as is known, once its numbers are corrected.
#[derive(Drop)]
pub struct SheetRepair {
    /// Its number among the slips that were tried.
    pub number: usize,
    /// The slip.
    pub slip: SheetSlip,
    /// The events without it, with their right numbers.
    pub right: Events,
    /// What is wrong without it.
    pub alone: NumbersAlone,
    /// What it costs.
    pub cost: u128,
}
