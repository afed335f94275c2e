//! The last total of a player, and its line.
ghost use Rattle.std.specs.Prelude.{◌≡◌};
ghost use Rattle.game_corrections.specs.LastTotals.{last_total, last_line};

use gcg_read::{Event, Points, Seat, same_seat};

/// The last total written for a player, or none if no event is the player's.
///
/// It is looked for from the end. So where the players take turns, one or two events are read.
#[tactic(auto, using(crate::proofs::Totals::last_own, crate::proofs::Totals::last_other))]
pub fn last_total(events: &[Event], player: Seat) -> Option<Points>
    ensures { result ≡ last_total player events.now }
{
    let mut remaining = events;
    while let Some((event, earlier)) = remaining.split_last() {
        if same_seat(event.player, player) {
            return Some(event.total);
        }
        remaining = earlier;
    }
    None
}

/// The line of a player's last event, or none if no event is the player's.
#[tactic(auto, using(crate::proofs::Totals::line_own, crate::proofs::Totals::line_other))]
pub(crate) fn last_line(events: &[Event], player: Seat) -> Option<u32>
    ensures { result ≡ last_line player events.now }
{
    let mut remaining = events;
    while let Some((event, earlier)) = remaining.split_last() {
        if same_seat(event.player, player) {
            return Some(event.line);
        }
        remaining = earlier;
    }
    None
}
