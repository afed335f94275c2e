//! What is wrong with what the lines show of a rack or of a kind of tile.

use crate::names::nick;
use explain_facts::{KindLine, Leaving, RackFact, RackLine};
use explain_parts::say;
use gcg_read::{Players, Seat};
use ref_tiles::{Counts, Kind};
use std::alloc::AllocError;

/// Appends that a line shows a whole rack without tiles that are left on it.
fn push_left_over(
    text: &mut Vec<u8>,
    before: u32,
    remaining: &Counts,
    after: u32,
    kind: Kind,
    has: usize,
) -> Result<(), AllocError> {
    say!(text; "After line ", before, " ", remaining, " is left, but line ", after, " has ")?;
    if has == 0 {
        return say!(text; "no ", kind, ".\n");
    }
    say!(text; "only ", has, " ", kind, ".\n")
}

/// Appends which tiles leave the rack.
fn push_leaving(text: &mut Vec<u8>, leaves: &Leaving) -> Result<(), AllocError> {
    match leaves {
        Leaving::Nothing => Ok(()),
        Leaving::Plays(tiles) => say!(text; " and plays ", tiles),
        Leaving::Exchanges(tiles) => say!(text; " and exchanges ", tiles),
    }
}

/// Appends what lines show of a player's rack, and what left it.
fn push_rack_lines(text: &mut Vec<u8>, lines: &[RackLine]) -> Result<(), AllocError> {
    for line in lines {
        say!(text; "  line ", line.line, " shows ", &line.shown)?;
        push_leaving(text, &line.leaves)?;
        say!(text; "\n")?;
    }
    Ok(())
}

/// How many tiles of a kind there would have to be.
#[derive(Clone, Copy)]
struct Needed {
    all: usize,
    needed: usize,
    laid: usize,
    first: usize,
    second: usize,
}

/// Appends that a kind of tile is shown more often than the game has it.
fn push_short(
    text: &mut Vec<u8>,
    players: &Players,
    kind: Kind,
    many: &Needed,
) -> Result<(), AllocError> {
    say!(text; "The game has ", many.all, " of the tile ", kind, ", but by what the lines up to this one show ")?;
    say!(text; "there would have to be ", many.needed, ": ")?;
    say!(text; many.laid, " on the board, ", many.first, " on ", nick(players, Seat::First), "'s rack and ")?;
    say!(text; many.second, " on ", nick(players, Seat::Second), "'s.\n")
}

/// Appends the lines that show a kind of tile: how many each shows and plays.
fn push_kind_lines(
    text: &mut Vec<u8>,
    players: &Players,
    lines: &[KindLine],
) -> Result<(), AllocError> {
    for line in lines {
        say!(text; "  line ", line.line, " shows ", line.shown, " on ", nick(players, line.player), "'s rack")?;
        if line.played > 0 {
            say!(text; " and plays ", line.played)?;
        }
        say!(text; "\n")?;
    }
    Ok(())
}

/// Appends how many tiles a rack would have to hold, and which.
fn push_needed(text: &mut Vec<u8>, total: usize, needed: &Counts) -> Result<(), AllocError> {
    say!(text; "but by the lines below the rack would have to hold ", total, ": ", needed, ".\n")
}

/// Appends that a rack would have more tiles than its player has, with the lines that show them.
fn push_big_rack(
    text: &mut Vec<u8>,
    players: &Players,
    player: Seat,
    size: usize,
    needed: &Counts,
    lines: &[RackLine],
) -> Result<(), AllocError> {
    say!(text; nick(players, player), " has ", (size, "tile"), " here, ")?;
    push_needed(text, needed.total(), needed)?;
    push_rack_lines(text, lines)
}

/// Appends that a kind of tile is shown more often than the game has it, with the lines that show it.
fn push_short_kind(
    text: &mut Vec<u8>,
    players: &Players,
    kind: Kind,
    many: &Needed,
    lines: &[KindLine],
) -> Result<(), AllocError> {
    push_short(text, players, kind, many)?;
    push_kind_lines(text, players, lines)
}

/// Appends a fact about racks.
pub fn push_rack_fact(
    text: &mut Vec<u8>,
    players: &Players,
    fact: &RackFact,
) -> Result<(), AllocError> {
    match fact {
        RackFact::LeftOver {
            before,
            remaining,
            after,
            kind,
            has,
            ..
        } => push_left_over(text, *before, remaining, *after, *kind, *has),
        RackFact::TooBig {
            player,
            size,
            needed,
            lines,
        } => push_big_rack(text, players, *player, *size, needed, lines.as_slice()),
        RackFact::TilesShort {
            kind,
            all,
            needed,
            laid,
            first,
            second,
            lines,
        } => {
            let many = Needed {
                all: *all,
                needed: *needed,
                laid: *laid,
                first: *first,
                second: *second,
            };
            push_short_kind(text, players, *kind, &many, lines.as_slice())
        }
    }
}
