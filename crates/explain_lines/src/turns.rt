//! Whose turn it is, and whether there are any more.

use crate::names::nick;
use explain_facts::TurnFact;
use explain_parts::say;
use gcg_read::Players;
use std::alloc::AllocError;

/// Appends why no last rack is due.
fn push_none_due(text: &mut Vec<u8>, limit: usize, turns: usize) -> Result<(), AllocError> {
    let were = if turns == 1 { "was" } else { "were" };
    say!(text; "No last rack is due. No player is out, and a game ends after ", limit, " turns in a row without a play that stands; ")?;
    say!(text; "before this line there ", were, " ", turns, ".\n")
}

/// Appends a fact about turns.
pub fn push_turn_fact(
    text: &mut Vec<u8>,
    players: &Players,
    fact: &TurnFact,
) -> Result<(), AllocError> {
    match fact {
        TurnFact::OthersTurn { player, other } =>
            say!(text; "It is ", nick(players, *other), "'s turn, not ", nick(players, *player), "'s.\n"),
        TurnFact::OthersLine { player, out } => {
            let out = nick(players, *out);
            let player = nick(players, *player);
            say!(text; out, " is out, so ", player, "'s last rack has to be on a line of ", out, ", who gets the points.\n")
        }
        TurnFact::Complete => say!(text; "The game is complete: the last racks are in.\n"),
        TurnFact::Out { out, holder } => {
            let out = nick(players, *out);
            let holder = nick(players, *holder);
            say!(text; out, " is out, so there are no more turns. What is missing is ", holder, "'s last rack, on a line of ", out, ".\n")
        }
        TurnFact::RackLost { player, holder } => {
            let player = nick(players, *player);
            let holder = nick(players, *holder);
            say!(text; player, " has lost the points of a rack, so there are no more turns. What is missing is ", holder, "'s last rack.\n")
        }
        TurnFact::NoRackDue { limit, turns } => push_none_due(text, *limit, *turns),
    }
}
