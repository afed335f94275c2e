//! What a line says of a player.
ghost use Rattle.std.specs.Prelude.{◌≡◌, IfOk, option_map};
ghost use Rattle.std.specs.String.{string_bytes};
ghost use Rattle.game_corrections.specs.LastTotals.{last_total};
ghost use Rattle.archive_lines.specs.Players.{nick_of};

use game_corrections::last_total;
use gcg_about::Encoding;
use gcg_read::{Event, Player, Seat};
use std::alloc::{AllocError, Global};

/// The last total of a player.
pub fn total_of(events: &[Event], player: Seat) -> Option<i32>
    ensures { result ≡ last_total player events.now }
{
    match last_total(events, player) {
        None => None,
        Some(total) => Some(total.value()),
    }
}

/// The nickname of a player as text, by this encoding; none if there is none.
pub fn nick_of(
    alloc: Global,
    player: &Player,
    encoding: Encoding,
) -> Result<Option<String>, AllocError>
    ensures { IfOk result (λ nick. option_map string_bytes nick ≡ nick_of encoding player.now.nick) }
{
    match player.nick.as_bytes() {
        [] => Ok(None),
        nick => Ok(Some(encoding.text_of(alloc, nick)?)),
    }
}
