//! Lines that are there twice, in the wrong order or under the wrong name, and lines that are missing.

use crate::names::nick;
use explain_facts::OrderFact;
use explain_parts::say;
use gcg_read::{Players, Seat};
use std::alloc::AllocError;

/// Appends that a line seems to be missing: one with points, or a pass or an exchange.
fn push_missing(
    text: &mut Vec<u8>,
    players: &Players,
    player: Seat,
    score: i32,
    before: u32,
    after: u32,
) -> Result<(), AllocError> {
    let nick = nick(players, player);
    if score == 0 {
        return say!(text; "A pass or an exchange of ", nick, " seems to be missing between lines ", before, " and ", after, ".\n");
    }
    say!(text; "A line of ", nick, " with +", score, " seems to be missing between lines ", before, " and ", after, ".\n")
}

/// Appends a fact about the order of lines.
pub fn push_order_fact(
    text: &mut Vec<u8>,
    players: &Players,
    fact: &OrderFact,
) -> Result<(), AllocError> {
    match fact {
        OrderFact::StandsTwice { line } =>
            say!(text; "This line says the same as line ", *line, "; it may have been written twice by mistake.\n"),
        OrderFact::WrongWay { line, next } =>
            say!(text; "With lines ", *line, " and ", *next, " the other way round the rules allow both.\n"),
        OrderFact::Missing {
            player,
            score,
            before,
            after,
        } => push_missing(text, players, *player, *score, *before, *after),
        OrderFact::AllowedFor { other } =>
            say!(text; "If this is a line of ", nick(players, *other), ", the rules allow it.\n"),
    }
}
