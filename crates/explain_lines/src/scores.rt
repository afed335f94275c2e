//! A score that is not the right one, and where it would be right.

use crate::names::nick;
use explain_clues::Spot;
use explain_facts::ScoreFact;
use explain_parts::say;
use gcg_read::{Players, Seat};
use ref_tiles::Counts;
use std::alloc::AllocError;

/// Appends the right score and the written one.
fn push_score(
    text: &mut Vec<u8>,
    front: &'static str,
    right: i32,
    written: i32,
) -> Result<(), AllocError> {
    say!(text; front, " ", right, ", but ", written, " is written.\n")
}

/// Appends what a last rack does to the points of its player.
fn push_last_rack(
    text: &mut Vec<u8>,
    players: &Players,
    player: Seat,
    is_doubled: bool,
    tiles: &Counts,
) -> Result<(), AllocError> {
    let what = if is_doubled {
        " gets twice the points of the rack "
    } else {
        " loses the points of the rack "
    };
    say!(text; nick(players, player), what, tiles)
}

/// Appends where the same letters have the written score.
fn push_elsewhere(
    text: &mut Vec<u8>,
    written: i32,
    spots: &[Spot],
    others: usize,
) -> Result<(), AllocError> {
    say!(text; "The same letters score ", written, " at ")?;
    let last = if others == 0 { spots.len() } else { 0 };
    for (k, spot) in spots.iter().enumerate() {
        push_spot(text, spot, k, last)?;
    }
    if others > 0 {
        say!(text; " and ", (others, "other place"))?;
    }
    say!(text; ".\n")
}

/// Appends a spot, after what separates it from the one before. The spot with number `last`, counted from 1, is the last one.
fn push_spot(text: &mut Vec<u8>, spot: &Spot, k: usize, last: usize) -> Result<(), AllocError> {
    let front = if k == 0 {
        ""
    } else if k.saturating_add(1) == last {
        " and "
    } else {
        ", "
    };
    say!(text; front, (spot.at, spot.dir))
}

/// Appends a fact about a score.
pub fn push_score_fact(
    text: &mut Vec<u8>,
    players: &Players,
    fact: &ScoreFact,
) -> Result<(), AllocError> {
    match fact {
        ScoreFact::Play { right, written } => push_score(text, "The play scores", *right, *written),
        ScoreFact::Pass { right, written } => push_score(text, "A pass scores", *right, *written),
        ScoreFact::Exchange { right, written } => {
            push_score(text, "An exchange scores", *right, *written)
        }
        ScoreFact::Withdrawal { right, written } => {
            let front = "A withdrawal takes the points of the play off again: it scores";
            push_score(text, front, *right, *written)
        }
        ScoreFact::LastRack {
            player,
            is_doubled,
            tiles,
            right,
            written,
        } => {
            push_last_rack(text, players, *player, *is_doubled, tiles)?;
            push_score(text, ": the score is", *right, *written)
        }
        ScoreFact::Other { right, written } => push_score(text, "The score is", *right, *written),
        ScoreFact::Elsewhere {
            written,
            spots,
            others,
        } => push_elsewhere(text, *written, spots.as_slice(), *others),
        ScoreFact::TotalFits { score, total } =>
            say!(text; "With ", *score, " the total is ", *total, ", as is written.\n"),
    }
}
