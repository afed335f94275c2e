//! How many differences two sheets have.
ghost use Rattle.compare_answers.specs.Counts.{AreCounts};

use compare_alignments::{MOST_ITEMS, Pair, count_choices, count_items, count_racks};

/// How many differences two sheets have.
#[derive(Clone, Copy)]
pub struct ItemCounts {
    /// How many pairs of lines differ.
    pub items: usize,
    /// How many pairs of lines of one player state different racks.
    pub racks: usize,
    /// How many of both are past the twelfth, and so are not varied.
    pub not_varied: usize,
    /// The number of choices.
    pub choices: usize,
}

/// How many differences there are in some pairs.
pub(crate) fn counts_of(pairs: &[Pair]) -> ItemCounts
    ensures { AreCounts pairs.now result }
{
    let items = count_items(pairs);
    let racks = count_racks(pairs);
    ItemCounts {
        items,
        racks,
        not_varied: (items + racks).saturating_sub(MOST_ITEMS),
        choices: count_choices(pairs),
    }
}
