//! The names of players.

use gcg_read::{Players, Seat};

/// The nickname of a player, or words for a player who has none.
pub fn nick(players: &Players, player: Seat) -> &[u8] {
    let nick = players.of(player).nick.as_bytes();
    if nick.is_empty() {
        return b"the other player";
    }
    nick
}
