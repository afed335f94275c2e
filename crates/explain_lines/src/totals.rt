//! A total that is not the right one, and penalties for time.

use crate::names::nick;
use explain_facts::TotalFact;
use explain_parts::say;
use gcg_read::Players;
use std::alloc::AllocError;

/// Appends how a total is made.
fn push_total(
    text: &mut Vec<u8>,
    nick: &[u8],
    had: i32,
    score: i32,
    right: i32,
    written: i32,
) -> Result<(), AllocError> {
    say!(text; nick, " had ", had, " and scores ", score, " on this line, which makes ", right, ", but ", written, " is written.\n")
}

/// Appends a fact about a total or a penalty.
pub fn push_total_fact(
    text: &mut Vec<u8>,
    players: &Players,
    fact: &TotalFact,
) -> Result<(), AllocError> {
    match fact {
        TotalFact::Wrong {
            player,
            had,
            score,
            right,
            written,
        } => push_total(text, nick(players, *player), *had, *score, *right, *written),
        TotalFact::LeavesOutOwn =>
            say!(text; "The written total leaves out the score of this line.\n"),
        TotalFact::LeavesOut { line, score } =>
            say!(text; "The written total leaves out line ", *line, ", which scores ", *score, ".\n"),
        TotalFact::TimeStep { step, written } =>
            say!(text; "A penalty for time is a negative multiple of ", *step, ", but ", *written, " is written.\n"),
        TotalFact::SecondTime { player, line } =>
            say!(text; nick(players, *player), " already has a penalty for time, on line ", *line, ", and a player has one at most.\n"),
    }
}
