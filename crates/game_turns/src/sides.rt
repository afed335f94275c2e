//! What a game keeps for each player.
ghost use Rattle.std.specs.Prelude.{◌≡◌, pos, true, false};

use gcg_read::{Points, Seat};

/// What one player has.
#[derive(Clone, Copy, Debug, PartialEq, Eq)]
pub struct Side {
    /// The running total.
    pub total: Points,
    /// The number of tiles on the rack.
    pub rack: usize,
    /// Whether a time penalty stands.
    pub timed: bool,
    /// Whether a last rack stands.
    pub ended: bool,
}

impl Side {
    ghost use Rattle.game_turns.specs.Seats.{starting_side};

    /// The start of a game: no points, and seven tiles.
    fn new() -> Side
        ensures { result ≡ starting_side }
    {
        Side {
            total: Points::new(0).unwrap(),
            rack: 7,
            timed: false,
            ended: false,
        }
    }
}

/// What both players have.
#[derive(Clone, Copy, Debug, PartialEq, Eq)]
pub struct Sides {
    /// The player whose nickname comes first in the record.
    pub first: Side,
    /// The other player.
    pub second: Side,
}

impl Sides {
    ghost use Rattle.game_turns.specs.Seats.{side_of, with_side, with_total, with_rack, starting_side};

    /// The start of a game: no points, and seven tiles each.
    pub fn new() -> Sides
        ensures { result ≡ record { first = starting_side; second = starting_side } }
    {
        Sides {
            first: Side::new(),
            second: Side::new(),
        }
    }

    /// What a player has.
    pub fn of(&self, seat: Seat) -> &Side
        ensures { result.now ≡ side_of self.now seat }
    {
        match seat {
            Seat::First => &self.first,
            Seat::Second => &self.second,
        }
    }

    /// Sets a player's total.
    pub fn set_total(&mut self, seat: Seat, total: Points)
        ensures { self.new ≡ with_total self.old seat total }
    {
        match seat {
            Seat::First => self.first.total = total,
            Seat::Second => self.second.total = total,
        }
    }

    /// Sets the number of tiles on a player's rack.
    pub fn set_rack(&mut self, seat: Seat, rack: usize)
        ensures { self.new ≡ with_rack self.old seat rack }
    {
        match seat {
            Seat::First => self.first.rack = rack,
            Seat::Second => self.second.rack = rack,
        }
    }

    /// Records a time penalty of a player.
    pub fn set_timed(&mut self, seat: Seat)
        ensures { self.new ≡ with_side self.old seat (record (side_of self.old seat) { timed = true }) }
    {
        match seat {
            Seat::First => self.first.timed = true,
            Seat::Second => self.second.timed = true,
        }
    }

    /// Records a last rack of a player.
    pub fn set_ended(&mut self, seat: Seat)
        ensures { self.new ≡ with_side self.old seat (record (side_of self.old seat) { ended = true }) }
    {
        match seat {
            Seat::First => self.first.ended = true,
            Seat::Second => self.second.ended = true,
        }
    }
}
