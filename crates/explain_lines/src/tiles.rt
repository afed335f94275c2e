//! Events with more tiles than there are.

use crate::names::nick;
use explain_facts::TileFact;
use explain_parts::say;
use gcg_read::Players;
use std::alloc::AllocError;

/// Appends a fact about how many tiles there are.
pub fn push_tile_fact(
    text: &mut Vec<u8>,
    players: &Players,
    fact: &TileFact,
) -> Result<(), AllocError> {
    match fact {
        TileFact::TooManyUsed { player, used, has } =>
            say!(text; "The play uses ", (*used, "tile"), ", but ", nick(players, *player), " has only ", *has, " left.\n"),
        TileFact::ExchangeRefused { bag, least } =>
            say!(text; "The bag has ", (*bag, "tile"), ", but an exchange is allowed only while it has ", *least, " or more.\n"),
        TileFact::ExchangeSize {
            tiles,
            player,
            has,
            bag,
        } =>
            say!(text; (*tiles, "tile"), " cannot be exchanged: ", nick(players, *player), " has ", *has, ", and the bag has ", *bag, ".\n"),
        TileFact::LastRackSize { shown, holder, has } =>
            say!(text; "The last rack shows ", (*shown, "tile"), ", but ", nick(players, *holder), " has ", *has, ".\n"),
    }
}
