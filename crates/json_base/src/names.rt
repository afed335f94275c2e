//! Names of events, players and directions.
ghost use Rattle.std.specs.Prelude.{◌≡◌};
ghost use Rattle.json_base.specs.Words.{direction_word, kind_word, player_number};

use gcg_read::{EventKind, Seat};
use ref_board::Dir;

/// The number of a seat.
pub fn number_of(seat: Seat) -> u32
    ensures { result ≡ player_number seat }
{
    match seat {
        Seat::First => 1,
        Seat::Second => 2,
    }
}

/// The name of what happened.
pub fn kind_name(kind: &EventKind) -> &'static str
    ensures { result.now ≡ kind_word kind.now }
{
    match kind {
        EventKind::Play { .. } => "play",
        EventKind::Pass => "pass",
        EventKind::Exchange(_) | EventKind::ExchangeUnknown(_) => "exchange",
        EventKind::Withdraw => "withdraw",
        EventKind::Challenge => "challenge",
        EventKind::Time => "time",
        EventKind::LastRack(_) => "last rack",
    }
}

/// The name of a direction.
pub fn direction_of(dir: Dir) -> &'static str
    ensures { result.now ≡ direction_word dir }
{
    match dir {
        Dir::Across => "across",
        Dir::Down => "down",
    }
}
