//! The single tests of a legal play.
ghost use Rattle.std.specs.Prelude.{◌≡◌, ◌-◌, ◌<◌, ◌≤◌, true, false, length};
ghost use Rattle.ref_board.specs.Cells.{holds, occupied_on};
ghost use Rattle.ref_play.specs.Placements.{with_tiles, are_rising, covers};
ghost use Rattle.ref_board.specs.Anchors.{touches};
ghost use Rattle.ref_play.specs.Legality.{overlaps, has_gap, has_no_tile, misses_centre, is_apart, last_square};
ghost use Rattle.std.specs.List.{list_all, list_any, range_with_len};

use crate::placed::Placed;
use ref_board::{Board, Dir, Square, touches};

/// Whether a tile of a placement lies on an occupied square.
#[tactic(auto, unfolding(crate::specs::Legality::overlaps))]
pub fn overlaps(board: &Board, tiles: &[Placed]) -> bool
    ensures { result ≡ overlaps board.now tiles.now }
{
    tiles.iter().any(|placed| board.at(placed.square).is_some())
}

/// The board with the tiles of a placement on empty squares.
pub fn with_tiles(board: &Board, tiles: &[Placed]) -> Board
    requires rising { are_rising tiles.now ≡ true }
    requires free { overlaps board.now tiles.now ≡ false }
    ensures { result ≡ with_tiles board.now tiles.now }
{
    let mut after = *board;
    for placed in tiles {
        after.put(placed.square, placed.tile);
    }
    after
}

/// Whether each place of a line from `start` to just before `end` has a tile.
fn is_filled(board: &Board, dir: Dir, line: usize, start: usize, end: usize) -> bool
    requires line { line < 15 }
    requires end { end ≤ 15 }
    ensures { result ≡ list_all (occupied_on dir board.now line) (range_with_len start (end - start)) }
{
    for place in start..end {
        if board.at(Square::on_line(dir, line, place)).is_none() {
            return false;
        }
    }
    true
}

/// The square of the last tile of a placement whose first tile is `first`.
fn last_square(first: &Placed, rest: &[Placed]) -> Square
    ensures { result ≡ last_square first.now rest.now }
{
    match rest.last() {
        Some(last) => last.square,
        None => first.square,
    }
}

/// Whether an empty square lies between two tiles of a placement, on the board with its tiles.
#[tactic(auto, unfolding(crate::specs::Legality::has_gap))]
pub fn has_gap(after: &Board, dir: Dir, tiles: &[Placed]) -> bool
    ensures { result ≡ has_gap dir after.now tiles.now }
{
    let Some((first, rest)) = tiles.split_first() else {
        return false;
    };
    let line = first.square.line(dir);
    let start = first.square.place(dir);
    let end = last_square(first, rest).place(dir);
    !is_filled(after, dir, line, start, end)
}

/// Whether a placement covers a square.
pub fn covers(tiles: &[Placed], square: Square) -> bool
    ensures { result ≡ covers tiles.now square }
{
    tiles.iter().any(|placed| placed.square == square)
}

/// Whether no square has a tile.
fn has_no_tile(board: &Board) -> bool
    ensures { result ≡ has_no_tile board.now }
{
    board.is_empty()
}

/// Whether the board is empty and the placement does not cover its centre.
#[tactic(auto, unfolding(crate::specs::Legality::misses_centre))]
pub fn misses_centre(board: &Board, tiles: &[Placed]) -> bool
    ensures { result ≡ misses_centre board.now tiles.now }
{
    has_no_tile(board) && !covers(tiles, Square::on_line(Dir::Across, 7, 7))
}

/// Whether a tile of the placement is orthogonally beside an old one.
fn touches_any(board: &Board, tiles: &[Placed]) -> bool
    ensures { result ≡ list_any (λ p. touches board.now p.square) tiles.now }
{
    tiles.iter().any(|placed| touches(board, placed.square))
}

/// Whether the board has tiles and no tile of the placement is orthogonally beside one.
#[tactic(auto, unfolding(crate::specs::Legality::is_apart))]
pub fn is_apart(board: &Board, tiles: &[Placed]) -> bool
    ensures { result ≡ is_apart board.now tiles.now }
{
    !has_no_tile(board) && !touches_any(board, tiles)
}
