//! Tests of the kinds of events: plays, withdrawals, turns.
ghost use Rattle.std.specs.Prelude.{◌≡◌};
ghost use Rattle.std.specs.Option.{option_copied};
ghost use Rattle.game_turns.specs.Standing.{is_withdraw};
ghost use Rattle.game_turns.specs.Tallies.{is_play, is_turn, withdraws};

use gcg_read::{Event, EventKind, Seat};

/// Whether the event is a play.
pub fn is_play(kind: &EventKind) -> bool
    ensures { result ≡ is_play kind.now }
{
    matches!(kind, EventKind::Play { .. })
}

/// Whether the event takes a play back.
pub fn is_withdraw(kind: &EventKind) -> bool
    ensures { result ≡ is_withdraw kind.now }
{
    matches!(kind, EventKind::Withdraw)
}

/// Whether a withdrawal is the next event.
pub fn withdraws(next: Option<&Event>) -> bool
    ensures { result ≡ withdraws (option_copied next.entry) }
{
    match next {
        Some(event) => is_withdraw(&event.kind),
        None => false,
    }
}

/// Whether an event is a turn, if this player, or nobody, is out before it.
pub fn is_turn(kind: &EventKind, out: Option<Seat>, withdrawn: bool) -> bool
    ensures { result ≡ is_turn withdrawn out kind.now }
{
    match kind {
        EventKind::Play { .. } => !withdrawn,
        EventKind::Pass => out.is_none(),
        EventKind::Exchange(_) | EventKind::ExchangeUnknown(_) | EventKind::Withdraw => true,
        EventKind::Challenge | EventKind::Time | EventKind::LastRack(_) => false,
    }
}
