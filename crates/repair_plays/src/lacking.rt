//! The tiles of a play: those that are on no other line.
ghost use Rattle.std.specs.Prelude.{◌<◌, length};

use game_turns::withdraws;
use gcg_read::{Event, EventKind};
use ref_board::{Board, Dir, SIDE, Square};
use ref_play::{Placed, placement_of};
use ref_tiles::{Counts, Rules, Symbol};
use repair_slips::rest_tiles;

/// Whether a record has a last rack, so that all tiles are on its lines.
pub(crate) fn has_last_rack(events: &[Event]) -> bool {
    for event in events {
        if let EventKind::LastRack(_) = &event.kind {
            return true;
        }
    }
    false
}

/// Puts a tile on its square, if that is empty.
fn put_on(board: &mut Board, placed: &Placed) {
    if board.at(placed.square).is_none() {
        board.put(placed.square, placed.tile);
    }
}

/// Lays the tiles of a text over a board: those whose square there is empty.
fn lay_over(board: &mut Board, at: Square, dir: Dir, word: &[Symbol]) {
    let many = word.len().min(SIDE - at.place(dir));
    let tiles = placement_of(board, at, dir, &word[..many]);
    for placed in &tiles {
        put_on(board, placed);
    }
}

/// Lays the play at a place over a board, if it stands: if no withdrawal follows it.
fn lay_at(board: &mut Board, events: &[Event], place: usize)
    requires { place < length events.now }
{
    if withdraws(events.get(place + 1)) {
        return;
    }
    if let EventKind::Play { at, dir, word } = &events[place].kind {
        lay_over(board, *at, *dir, word.as_slice());
    }
}

/// Lays the plays of some events that stand over a board, whatever is wrong with them.
fn lay_all(board: &mut Board, events: &[Event]) {
    for place in 0..events.len() {
        lay_at(board, events, place);
    }
}

/// The tiles that are on no line of a record: on no play that stands, and on no last rack.
pub(crate) fn tiles_on_no_line(rules: &Rules, events: &[Event]) -> Counts {
    tiles_on_none_of(rules, events, &events[events.len()..])
}

/// The tiles that are on no line except the one at a place.
pub(crate) fn tiles_on_no_other(rules: &Rules, events: &[Event], place: usize) -> Counts
    requires { place < length events.now }
{
    tiles_on_none_of(rules, &events[..place], &events[place + 1..])
}

/// The tiles of a game that are neither on one of the lines before nor on one of those after.
fn tiles_on_none_of(rules: &Rules, before: &[Event], following: &[Event]) -> Counts {
    let mut board = Board::empty();
    lay_all(&mut board, before);
    lay_all(&mut board, following);
    rest_tiles(rules, &board, before, following)
}
