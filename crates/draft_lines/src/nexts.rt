//! What the next line of a draft is about.

use draft_answers::{DraftNext, NextLine, NextSide};
use engine_stages::{GameFault, illegal_line};
use explain_parts::say;
use game_walk::Refusal;
use gcg_read::{Players, Seat};
use std::alloc::{AllocError, Global};

/// The nickname of a player, or which player it is if there is none yet.
fn name_of(players: &Players, player: Seat) -> &[u8] {
    let nick = players.of(player).nick.as_bytes();
    if !nick.is_empty() {
        return nick;
    }
    match player {
        Seat::First => b"player 1".as_slice(),
        Seat::Second => b"player 2".as_slice(),
    }
}

/// Appends a line with what a player has.
fn push_side(
    text: &mut Vec<u8>,
    players: &Players,
    player: Seat,
    side: &NextSide,
) -> Result<(), AllocError> {
    say!(text; name_of(players, player), ": total ", side.total, ", ", (side.rack, "tile"), "\n")
}

/// Appends whose turn it is, or that turns are over.
fn push_turn(text: &mut Vec<u8>, players: &Players, next: &NextLine) -> Result<(), AllocError> {
    if next.complete {
        return say!(text; "the game is complete\n");
    }
    if let Some(player) = next.out {
        return say!(text; name_of(players, player), " is out\n");
    }
    match next.turn {
        Some(player) => say!(text; "next: ", name_of(players, player), "\n"),
        None => say!(text; "next: either player\n"),
    }
}

/// Appends the verdict on the line that the rules refuse with any numbers, if there is one.
fn push_refused(
    alloc: Global,
    text: &mut Vec<u8>,
    stopped: &Option<Refusal>,
) -> Result<(), AllocError> {
    let Some(refusal) = stopped else {
        return Ok(());
    };
    let line = illegal_line(alloc, refusal.line, &GameFault::Rule(refusal.why))?;
    text.extend_from_slice(line.as_slice())
}

/// Appends what the next line of a draft is about: whose turn it is, what each player has, and how many tiles are in the bag. If the rules refuse a
/// line, the verdict on it comes first, and the next line is that one.
///
/// It fails only if memory runs out.
pub fn push_next(alloc: Global, text: &mut Vec<u8>, draft: &DraftNext) -> Result<(), AllocError> {
    push_refused(alloc, text, &draft.stopped)?;
    let players = &draft.record.players;
    let next = &draft.next;
    push_turn(text, players, next)?;
    push_side(text, players, Seat::First, &next.first)?;
    push_side(text, players, Seat::Second, &next.second)?;
    say!(text; "bag: ", (next.bag, "tile"), "\n")
}
