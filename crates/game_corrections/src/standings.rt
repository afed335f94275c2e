//! Who is ahead.
ghost use Rattle.std.specs.Prelude.{◌≡◌};
ghost use Rattle.gcg_read.specs.Numerals.{IsPoints};
ghost use Rattle.game_corrections.specs.Standings.{total_in, IsStanding, IsStandingIn};

use crate::last_totals::last_total;
use gcg_read::{Event, Points, Seat};

/// Who has the greater of two totals.
#[derive(Clone, Copy, Debug, PartialEq, Eq)]
pub enum Standing {
    /// They are the same.
    Even,
    /// This player has more, by this number of points.
    Ahead(Seat, i32),
}

/// A total, or 0 if none is written.
fn total_in(total: &Option<Points>) -> i32
    ensures total { result ≡ total_in total.now }
    ensures in_range { IsPoints result }
{
    match total {
        Some(total) => total.value(),
        None => 0,
    }
}

/// Who has the greater of two totals, and by how many points.
pub fn standing_of(first: &Option<Points>, second: &Option<Points>) -> Standing
    ensures { IsStanding first.now second.now result }
{
    let (first, second) = (total_in(first), total_in(second));
    if first > second {
        Standing::Ahead(Seat::First, first - second)
    } else if second > first {
        Standing::Ahead(Seat::Second, second - first)
    } else {
        Standing::Even
    }
}

/// Who is ahead by the last totals of some events, and by how many points.
pub fn standing_in(events: &[Event]) -> Standing
    ensures { IsStandingIn events.now result }
{
    let first = last_total(events, Seat::First);
    let second = last_total(events, Seat::Second);
    standing_of(&first, &second)
}
