//! The game before a place of a record, by a walk over it.
ghost use Rattle.std.specs.Prelude.{◌≡◌, ◌↔◌, ◌<◌, ◌≤◌, ℕ, List, length, slice_get, IsSome, IfSome};
ghost use Rattle.ref_tiles.specs.declared.rulebook.Rules.{Rules};
ghost use Rattle.gcg_read.specs.declared.events.Event.{Event};
ghost use Rattle.game_turns.specs.Tallies.{withdraws};
ghost use Rattle.game_walk.specs.Walks.{IsWalkOf};
ghost use Rattle.repair_single.specs.Trying.{IsStart, StandsBefore};

use game_turns::{Machine, withdraws};
use game_walk::Walk;
use gcg_read::Event;

/// The game before the event at a place of a record that was walked over, counted from 0, and after the last row; none beyond that.
#[tactic(auto, using(crate::proofs::Walked::first_game, crate::proofs::Walked::next_game))]
pub fn game_before(walk: &Walk, place: usize) -> Option<&Machine>
    ensures there { IsSome result ↔ (place ≤ length walk.now.rows.items) }
    ensures game { (rules : Rules) (list : List (List ℕ)) (events : List Event) → IsWalkOf rules list events walk.now
        → IfSome result (λ machine. StandsBefore rules list events place machine.now) }
{
    if place == 0 {
        return Some(&walk.start);
    }
    match walk.rows.as_slice().get(place - 1) {
        Some(row) => Some(&row.following),
        None => None,
    }
}

/// Whether the event at a place is a withdrawal.
#[tactic(auto, using(game_turns::proofs::PlaceLaws::copied_get))]
pub(crate) fn withdraws_at(events: &[Event], place: usize) -> bool
    ensures { result ≡ withdraws (slice_get events.now place) }
{
    withdraws(events.get(place))
}

/// The place from which on a change at a place has to be tried: that place, or the one before it, if with the change the event before it
/// is taken back and otherwise is not, or the other way round.
#[tactic(auto, using(crate::proofs::Starts::starts_first, crate::proofs::Starts::starts_there, crate::proofs::Starts::starts_before))]
pub(crate) fn start_of(events: &[Event], changed: &[Event], place: usize) -> usize
    requires { (k : ℕ) → k < place → slice_get changed.now k ≡ slice_get events.now k }
    ensures { IsStart events.now changed.now place result }
{
    if place == 0 {
        return 0;
    }
    if withdraws_at(changed, place) == withdraws_at(events, place) {
        return place;
    }
    place - 1
}
