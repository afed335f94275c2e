//! The tiles that are not on any line.
ghost use Rattle.std.specs.Prelude.{◌≡◌, ◌++◌, ◌∷◌, [], OnOk, Some};
ghost use Rattle.std.specs.Str.{bytes_eq};
ghost use Rattle.repair_slips.specs.Rests.{last_rack, off_board, off_racks, rest_tiles, is_rack, rest_for, rest_of_player, missing_rest};

use crate::adding::add;
use deal_steps::without;
use gcg_read::{Event, EventKind, Seat};
use ref_board::Board;
use ref_tiles::{Counts, Rules, Tile};
use repair_changes::{MissingLine, Slip, one_less};
use std::alloc::AllocError;

/// Tiles without the one that lies on a square.
#[tactic(auto, using(crate::proofs::RestLaws::off_tile, crate::proofs::RestLaws::off_free))]
fn off_square(counts: &Counts, cell: Option<Tile>) -> Counts
    ensures { result ≡ off_board counts.now (cell ∷ []) }
{
    counts.law_of_numbers();
    match cell {
        Some(tile) => one_less(counts, tile.kind),
        None => *counts,
    }
}

/// Tiles without those on a board.
#[tactic(auto, using(crate::proofs::RestLaws::squares_more, crate::proofs::RestLaws::squares_end))]
fn off_board(counts: &Counts, cells: &[Option<Tile>]) -> Counts
    ensures { result ≡ off_board counts.now cells.now }
{
    let mut rest = *counts;
    for cell in cells {
        rest = off_square(&rest, *cell);
    }
    rest.law_of_numbers();
    rest
}

/// The tiles that an event names as a last rack.
fn last_rack(kind: &EventKind) -> Counts
    ensures { result ≡ last_rack kind.now }
{
    match kind {
        EventKind::LastRack(tiles) => *tiles,
        _ => Counts::new(),
    }
}

/// Tiles without those of an event, if it is a last rack.
#[tactic(auto, using(crate::proofs::RestLaws::off_rack_is))]
fn off_rack(counts: &Counts, event: &Event) -> Counts
    ensures { result ≡ off_racks counts.now (event.now ∷ []) }
{
    without(counts, &last_rack(&event.kind))
}

/// Tiles without those of last racks.
#[tactic(auto, using(crate::proofs::RestLaws::racks_more, crate::proofs::RestLaws::racks_end))]
fn off_racks(counts: &Counts, events: &[Event]) -> Counts
    ensures { result ≡ off_racks counts.now events.now }
{
    let mut rest = *counts;
    for event in events {
        rest = off_rack(&rest, event);
    }
    rest.law_of_numbers();
    rest
}

/// The tiles that are not on any line: those of the game without those on the board and those of the last racks before and after.
#[tactic(auto, using(crate::proofs::RestLaws::off_both_racks), unfolding(crate::specs::Rests::rest_tiles))]
pub fn rest_tiles(rules: &Rules, board: &Board, before: &[Event], following: &[Event]) -> Counts
    ensures { result ≡ rest_tiles rules.now board.now before.now following.now }
{
    let off = off_board(&rules.counts, board.cells());
    let rest = off_racks(&off, before);
    off_racks(&rest, following)
}

/// Whether these tiles can be a rack, by their number.
pub fn is_rack(tiles: &Counts) -> bool
    ensures { result ≡ is_rack tiles.now }
{
    let many = tiles.total();
    0 < many && many < 8
}

/// Whether both are the same tiles.
fn same_tiles(tiles: &Counts, others: &Counts) -> bool
    ensures { result ≡ bytes_eq tiles.now others.now }
{
    let own = tiles.numbers();
    let numbers = others.numbers();
    own.as_slice() == numbers.as_slice()
}

/// Adds the rest in place of other tiles, if it is a rack.
pub(crate) fn push_rest(
    slips: &mut Vec<Slip>,
    written: &Counts,
    rest: &Counts,
) -> Result<(), AllocError>
    ensures { OnOk result (slips.new.items ≡ slips.old.items ++ rest_for written.now rest.now) }
{
    if is_rack(rest) && !same_tiles(rest, written) {
        add(slips, Slip::Rest(*rest))
    } else {
        Ok(())
    }
}

/// Adds the last rack after the play of a player who is out, if the rest is a rack.
fn push_rest_of(slips: &mut Vec<Slip>, player: Seat, rest: &Counts) -> Result<(), AllocError>
    ensures { OnOk result (slips.new.items ≡ slips.old.items ++ rest_of_player (Some player) rest.now) }
{
    if !is_rack(rest) {
        return Ok(());
    }
    let line = MissingLine::Rest {
        player,
        tiles: *rest,
    };
    add(slips, Slip::Missing(line))
}

/// Adds the last rack of the rest, if a player is out and the game is not complete.
pub(crate) fn push_missing_rest(
    slips: &mut Vec<Slip>,
    complete: bool,
    out: Option<Seat>,
    rest: &Counts,
) -> Result<(), AllocError>
    ensures { OnOk result (slips.new.items ≡ slips.old.items ++ missing_rest complete out rest.now) }
{
    if complete {
        return Ok(());
    }
    match out {
        Some(player) => push_rest_of(slips, player, rest),
        None => Ok(()),
    }
}
