//! The turn that a total leaves out.
ghost use Rattle.std.specs.Prelude.{◌≡◌, reverse, Some, None, if◌then◌else◌};
ghost use Rattle.std.specs.Ordering.{int_eq};
ghost use Rattle.gcg_read.specs.Players.{same_seat};
ghost use Rattle.explain_clues.specs.Totals.{latest_with};

use gcg_read::{Event, Seat, same_seat};

/// The line found after one more event.
fn later(event: &Event, player: Seat, score: i32, found: Option<u32>) -> Option<u32>
    ensures { result ≡ if same_seat event.now.player player then (if int_eq event.now.score score then Some event.now.line else None) else found }
{
    if !same_seat(event.player, player) {
        return found;
    }
    if event.score.value() == score {
        return Some(event.line);
    }
    None
}

/// The line of a player's latest event, if that has this score. If the player's next total is too low by that score, it is right except for
/// that one event, and no total after that event has the score.
pub fn latest_with(events: &[Event], player: Seat, score: i32) -> Option<u32>
    ensures { result ≡ latest_with player score (reverse events.now) }
{
    let mut found = None;
    for event in events {
        found = later(event, player, score, found);
    }
    found
}
