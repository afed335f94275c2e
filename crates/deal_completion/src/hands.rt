//! The bag and the racks, and tiles that move between them.
ghost use Rattle.std.specs.Prelude.{◌≡◌, ℕ, ◌+◌, ◌<◌, slice_index};
ghost use Rattle.deal_steps.specs.Fitting.{rack_of, with_rack};
ghost use Rattle.deal_completion.specs.Completion.{take_off, put_on, undealt};

use deal_steps::{Racks, joined, without};
use gcg_read::Seat;
use ref_tiles::{Counts, Rules};

/// The bag and the racks.
#[derive(Clone, Copy)]
pub struct Hands {
    /// The tiles in the bag.
    pub bag: Counts,
    /// The tiles of the players.
    pub racks: Racks,
}

impl Hands {
    /// All tiles are in the bag.
    pub fn new(rules: &Rules) -> Hands
        ensures { result ≡ undealt rules.now }
    {
        Hands {
            bag: rules.counts,
            racks: Racks {
                first: Counts::new(),
                second: Counts::new(),
            },
        }
    }

    /// The hands with another rack for a player.
    fn with_rack(&self, seat: Seat, rack: Counts) -> Hands
        ensures { result ≡ record { bag = self.now.bag; racks = with_rack self.now.racks seat rack } }
    {
        Hands {
            bag: self.bag,
            racks: self.racks.with_rack(seat, rack),
        }
    }

    /// The hands with tiles taken off a player's rack.
    pub fn without_tiles(&self, seat: Seat, tiles: &Counts) -> Hands
        ensures { result ≡ take_off seat tiles.now self.now }
    {
        self.with_rack(seat, without(self.racks.of(seat), tiles))
    }

    /// The hands with tiles put on a player's rack.
    pub fn with_tiles(&self, seat: Seat, tiles: &Counts) -> Hands
        requires { (k : ℕ) → k < 27 → slice_index (rack_of self.now.racks seat) k + slice_index tiles.now k < 256 }
        ensures { result ≡ put_on seat tiles.now self.now }
    {
        self.with_rack(seat, joined(self.racks.of(seat), tiles))
    }
}
