//! The ways of tiles through a game.
use crate::piles::{Pile, minus, number_of, plus, sum_of};
use ref_tiles::KINDS;

/// The number of kinds that are lacking.
fn lacking_in(spare: &Pile) -> u32 {
    let mut lacking = 0u32;
    for number in spare {
        if *number < 0 {
            lacking = lacking.saturating_add(1);
        }
    }
    lacking
}

/// What a swap gives up for a tile.
#[derive(Clone, Copy)]
pub enum Other {
    /// A tile of this kind.
    Kind(usize),
    /// A tile of any other kind.
    Any,
}

/// A way of tiles from a place to the next.
#[derive(Clone, Copy)]
pub struct Arc {
    /// The node that it leaves.
    pub from: usize,
    /// The node that it enters.
    pub to: usize,
    /// The number of tiles that take it.
    pub size: i32,
    /// The number of them that are not asked for.
    pub loose: i32,
    /// The cost of lacking one more tile here.
    pub weight: u32,
    /// The number of kinds that are lacking.
    lacking: u32,
    /// The number of tiles of each kind that are asked for.
    pub need: Pile,
    /// The number of tiles of each kind that take it beyond those. Below 0, tiles are lacking.
    pub spare: Pile,
}

impl Arc {
    /// The arc between two nodes that these tiles take.
    pub fn new(from: usize, to: usize, tiles: &Pile, need: &Pile) -> Arc {
        let size = sum_of(tiles);
        let spare = minus(tiles, need);
        Arc {
            from,
            to,
            size,
            loose: size.wrapping_sub(sum_of(need)),
            weight: 1,
            lacking: lacking_in(&spare),
            need: *need,
            spare,
        }
    }

    /// The tiles that take the arc.
    pub fn tiles(&self) -> Pile {
        plus(&self.spare, &self.need)
    }

    /// The first kind that is lacking.
    pub fn lack(&self) -> Option<usize> {
        if self.lacking == 0 {
            return None;
        }
        for kind in 0..KINDS {
            if self.spare[kind] < 0 {
                return Some(kind);
            }
        }
        None
    }

    /// The number of tiles to spare of another kind, or of all kinds but one.
    fn spare_of(&self, kind: usize, other: Other) -> i32 {
        match other {
            Other::Kind(other) => number_of(&self.spare, other),
            Other::Any => self.loose.wrapping_sub(number_of(&self.spare, kind)),
        }
    }

    /// The cost of giving up a tile when this number is to spare, if that is allowed.
    fn cost(&self, spare: i32) -> Option<u32> {
        if spare > 0 {
            Some(0)
        } else if self.size > 0 {
            Some(self.weight)
        } else {
            None
        }
    }

    /// The cost of one more tile of a kind taking the arc, and one fewer of another.
    pub fn cost_along(&self, kind: usize, other: Other) -> Option<u32> {
        self.cost(self.spare_of(kind, other))
    }

    /// The cost of one fewer tile of a kind taking the arc, and one more of another.
    pub fn cost_against(&self, kind: usize) -> Option<u32> {
        self.cost(number_of(&self.spare, kind))
    }

    /// Lets one more tile of a kind take the arc, and one fewer of another. If that one is now lacking, the arc costs more from now on.
    pub fn swap(&mut self, more: usize, less: usize) {
        if more < KINDS && less < KINDS {
            self.spare[more] = self.spare[more].wrapping_add(1);
            self.spare[less] = self.spare[less].wrapping_sub(1);
            if self.spare[less] < 0 {
                self.weight = self.weight.saturating_add(1);
            }
            self.lacking = lacking_in(&self.spare);
        }
    }
}
