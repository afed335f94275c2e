//! Where a text does not agree with the board, and the number of tiles that it puts down.
ghost use Rattle.std.specs.Prelude.{◌≡◌, ◌≤◌, ◌+◌, length};
ghost use Rattle.ref_board.specs.Lines.{place_of};
ghost use Rattle.explain_clues.specs.Texts.{leaves_board, IsFirstMisfit, new_tiles};

use ref_board::{Board, Dir, SIDE, Square};
use ref_play::{along, placement_of, symbol_fits};
use ref_tiles::Symbol;

/// Whether a text leaves the board.
fn leaves_board(at: Square, dir: Dir, word: &[Symbol]) -> bool
    ensures { result ≡ leaves_board dir at word.now }
{
    word.len() > SIDE - at.place(dir)
}

/// The place, counted from 0, of the first symbol of a text that does not agree with its square: a dot on an empty square, or a
/// letter on a tile that shows another. None if each agrees, or if the text leaves the board.
pub fn first_misfit(board: &Board, at: Square, dir: Dir, word: &[Symbol]) -> Option<usize>
    ensures { IsFirstMisfit board.now dir at word.now result }
{
    if leaves_board(at, dir, word) {
        return None;
    }
    for (k, symbol) in word.iter().enumerate() {
        if !symbol_fits(board.at(along(at, dir, k)), *symbol) {
            return Some(k);
        }
    }
    None
}

/// The number of tiles that a text puts down: its letters on empty squares. None if it leaves the board.
pub fn new_tiles(board: &Board, at: Square, dir: Dir, word: &[Symbol]) -> Option<usize>
    ensures { result ≡ new_tiles board.now dir at word.now }
{
    if leaves_board(at, dir, word) {
        return None;
    }
    Some(placement_of(board, at, dir, word).len())
}
