//! The last totals of the two players.
ghost use Rattle.std.specs.Prelude.{◌≡◌, None};
ghost use Rattle.gcg_read.specs.Numerals.{IsPoints};
ghost use Rattle.game_walk.specs.Numbers.{with_numbers};
ghost use Rattle.gcg_read.specs.declared.events.Seat.TheVariants as seat;
ghost use Rattle.game_walk.specs.Totals.{total_after, total_of, had_of};

use crate::numbers::Numbers;
use gcg_read::{Event, Points, Seat, same_seat};

/// The last total of each player, if there is one.
#[derive(Drop)]
pub struct Totals {
    /// That of the first player.
    pub first: Option<Points>,
    /// That of the other player.
    pub second: Option<Points>,
}

/// The last total of a player after one more event, which has these numbers.
fn total_after(event: &Event, own: &Numbers, player: Seat, total: Option<Points>) -> Option<Points>
    ensures { result ≡ total_after (with_numbers event.now own.now) player total }
{
    if same_seat(event.player, player) {
        Some(own.total)
    } else {
        total
    }
}

impl Totals {
    /// No totals.
    pub fn new() -> Totals
        ensures first { result.first ≡ None }
        ensures second { result.second ≡ None }
    {
        Totals {
            first: None,
            second: None,
        }
    }

    /// The last total of a player.
    pub fn of(&self, player: Seat) -> Option<Points>
        ensures { result ≡ total_of self.now player }
    {
        match player {
            Seat::First => self.first,
            Seat::Second => self.second,
        }
    }

    /// What a player has: the last total, or 0.
    pub fn had(&self, player: Seat) -> i32
        ensures had { result ≡ had_of self.now player }
        ensures in_range { IsPoints result }
    {
        match self.of(player) {
            Some(total) => total.value(),
            None => 0,
        }
    }

    /// Records the total of one more event, which has these numbers.
    pub fn note(&mut self, event: &Event, own: &Numbers)
        ensures first { self.new.first ≡ total_after (with_numbers event.now own.now) seat.First self.old.first }
        ensures second { self.new.second ≡ total_after (with_numbers event.now own.now) seat.Second self.old.second }
    {
        self.first = total_after(event, own, Seat::First, self.first);
        self.second = total_after(event, own, Seat::Second, self.second);
    }
}
