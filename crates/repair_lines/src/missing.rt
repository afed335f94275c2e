//! The words of a line that is missing.

use crate::names::nick;
use crate::words::push_play;
use explain_parts::{Part, say};
use gcg_read::{Players, Points, Seat};
use ref_tiles::Counts;
use repair_changes::{MissingLine, RightPlay};
use std::alloc::AllocError;

/// Appends what a player did.
fn push_done(
    text: &mut Vec<u8>,
    players: &Players,
    player: Seat,
    done: &str,
) -> Result<(), AllocError> {
    text.extend_from_slice(nick(players, player))?;
    text.extend_from_slice(done.as_bytes())
}

/// Appends that a player makes a play.
fn push_played(
    text: &mut Vec<u8>,
    players: &Players,
    player: Seat,
    play: &RightPlay,
) -> Result<(), AllocError> {
    push_done(text, players, player, " plays ")?;
    push_play(text, play.at, play.dir, play.word.as_slice())
}

/// Appends that a player exchanges a number of tiles.
fn push_exchange(
    text: &mut Vec<u8>,
    players: &Players,
    player: Seat,
    number: u8,
) -> Result<(), AllocError> {
    push_done(text, players, player, " exchanges ")?;
    say(text, &[Part::Things(number as usize, "tile")])
}

/// Appends that a player gets a penalty for time.
fn push_penalty(
    text: &mut Vec<u8>,
    players: &Players,
    player: Seat,
    score: Points,
) -> Result<(), AllocError> {
    push_done(text, players, player, " gets a penalty for time, ")?;
    say(text, &[Part::Points(score.value())])
}

/// Appends that a player gets a bonus, since the play was challenged without success.
fn push_bonus(
    text: &mut Vec<u8>,
    players: &Players,
    player: Seat,
    score: Points,
) -> Result<(), AllocError> {
    push_done(text, players, player, " gets ")?;
    say(
        text,
        &[
            Part::Points(score.value()),
            Part::Say(" points for a failed challenge"),
        ],
    )
}

/// Appends that a player gets the points of a last rack.
fn push_rest(
    text: &mut Vec<u8>,
    players: &Players,
    player: Seat,
    tiles: &Counts,
) -> Result<(), AllocError> {
    push_done(text, players, player, " gets the points of the last rack ")?;
    say(text, &[Part::Tiles(tiles)])
}

/// Appends what is on a line that is missing.
pub(crate) fn push_missing(
    text: &mut Vec<u8>,
    players: &Players,
    line: &MissingLine,
) -> Result<(), AllocError> {
    match line {
        MissingLine::Play { player, play } => push_played(text, players, *player, play),
        MissingLine::Pass(player) => push_done(text, players, *player, " passes"),
        MissingLine::Exchange { player, number } => push_exchange(text, players, *player, *number),
        MissingLine::Time { player, score, .. } => push_penalty(text, players, *player, *score),
        MissingLine::Withdrawal(player) => {
            push_done(text, players, *player, " takes the play back")
        }
        MissingLine::Challenge { player, score, .. } => {
            push_bonus(text, players, *player, *score)
        }
        MissingLine::Rest { player, tiles } => push_rest(text, players, *player, tiles),
    }
}
