//! Whose turn it is.
ghost use Rattle.std.specs.Prelude.{◌≡◌};
ghost use Rattle.game_turns.specs.Seats.{may_move};

use gcg_read::{Seat, same_seat};

/// Whether the next turn may be the player's: at the start it may be either player's.
pub fn may_move(mover: Option<Seat>, seat: Seat) -> bool
    ensures { result ≡ may_move mover seat }
{
    match mover {
        None => true,
        Some(mover) => same_seat(mover, seat),
    }
}
