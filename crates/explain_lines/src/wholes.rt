//! What is said of a record as a whole.

use crate::names::nick;
use crate::spelling::{push_lines, push_words};
use explain_facts::{GameFact, RackPart, UnlistedPlay};
use explain_parts::say;
use gcg_read::Players;
use std::alloc::AllocError;

/// Appends a play that stands with words that are not in the list.
fn push_play(text: &mut Vec<u8>, players: &Players, play: &UnlistedPlay) -> Result<(), AllocError> {
    let are = if play.words.len() == 1 { "is" } else { "are" };
    say!(text; "Line ", play.line, ": ", nick(players, play.player), "'s play stands with ")?;
    push_words(text, play.words.as_slice())?;
    say!(text; ", which ", are, " not in the word list.\n")
}

/// Appends the plays that stand with words that are not in the list, or that there are none.
fn push_plays(
    text: &mut Vec<u8>,
    players: &Players,
    plays: &[UnlistedPlay],
) -> Result<(), AllocError> {
    if plays.is_empty() {
        return say!(text; "Each word of every play that stands is in the word list.\n");
    }
    for play in plays {
        push_play(text, players, play)?;
    }
    Ok(())
}

/// Appends the racks that are shown in part.
fn push_parts(text: &mut Vec<u8>, parts: &[RackPart]) -> Result<(), AllocError> {
    for part in parts {
        say!(text; "Line ", part.line, " shows ", part.shown, " of ", (part.has, "tile"), ".\n")?;
    }
    Ok(())
}

/// Appends that every turn shows its rack, or every turn except those with a part of it.
fn push_shown(text: &mut Vec<u8>, parts: &[RackPart], turns: usize) -> Result<(), AllocError> {
    if parts.is_empty() {
        return say!(text; "Every turn shows its rack.\n");
    }
    if parts.len() == turns {
        return Ok(());
    }
    say!(text; "Every other turn shows its rack.\n")
}

/// Appends on which turns no rack is shown.
fn push_hidden(text: &mut Vec<u8>, lines: &[u32], turns: usize) -> Result<(), AllocError> {
    if lines.len() == turns {
        return say!(text; "No turn shows its rack.\n");
    }
    let named = if lines.len() == 1 { "line" } else { "lines" };
    say!(text; "No rack is shown on ", (lines.len(), "turn"), ": ", named, " ")?;
    push_lines(text, lines)?;
    say!(text; ".\n")
}

/// Appends on which turns no rack is shown, or only a part of it.
fn push_racks(
    text: &mut Vec<u8>,
    lines: &[u32],
    parts: &[RackPart],
    turns: usize,
) -> Result<(), AllocError> {
    if turns == 0 {
        return Ok(());
    }
    push_parts(text, parts)?;
    if lines.is_empty() {
        return push_shown(text, parts, turns);
    }
    push_hidden(text, lines, turns)
}

/// Appends that the rules allow every event, and that it was not found out whether a deal gives the racks.
fn push_unsettled(text: &mut Vec<u8>) -> Result<(), AllocError> {
    say!(text; "The rules allow every event. Neither a deal of the tiles that gives the players every rack that is shown was found, ")?;
    say!(text; "nor a proof that there is none.\n")
}

/// Appends a fact about a record as a whole.
pub fn push_game_fact(
    text: &mut Vec<u8>,
    players: &Players,
    fact: &GameFact,
) -> Result<(), AllocError> {
    match fact {
        GameFact::NoEvent => say!(text; "The record has no event. Is it a game record?\n"),
        GameFact::Legal =>
            say!(text; "The rules allow every event, and a deal of the tiles gives the players every rack that is shown.\n"),
        GameFact::Unsettled => push_unsettled(text),
        GameFact::Unlisted { plays } => push_plays(text, players, plays.as_slice()),
        GameFact::OtherList => say!(text; "Perhaps the game was played with another word list.\n"),
        GameFact::RacksHidden {
            lines,
            parts,
            turns,
        } => push_racks(text, lines.as_slice(), parts.as_slice(), *turns),
    }
}
