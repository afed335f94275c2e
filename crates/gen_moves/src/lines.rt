//! The cells of a line of the board.
ghost use Rattle.std.specs.Prelude.{ℕ, ◌<◌, List, [], slice_index_or};
ghost use Rattle.gen_cross.specs.Values.{HasMasks};
ghost use Rattle.gen_moves.specs.BoardLines.{IsCellOf, IsLineOf};

use gen_cross::Cross;
use gen_line::{Cell, Open};
use ref_board::{Board, Dir, SIDE, Square};

/// What a square is for a play of a direction.
fn cell_of(board: &Board, cross: &Cross, dir: Dir, square: Square) -> Cell
    ensures { (words : List (List ℕ)) → HasMasks words board.now cross.now → IsCellOf words dir board.now square result }
{
    match board.at(square) {
        Some(tile) => Cell::Old(tile.shown.index + 1),
        None => Cell::Free(Open {
            mask: cross.mask(dir, square),
            anchor: board.is_anchor(square),
        }),
    }
}

/// The cells of a line.
fn line_cells(board: &Board, cross: &Cross, dir: Dir, line: usize) -> [Cell; SIDE]
    requires { line < SIDE }
    ensures { (words : List (List ℕ)) → HasMasks words board.now cross.now → IsLineOf words dir board.now line result }
{
    let mut cells = [Cell::Old(0); SIDE];
    for place in 0..SIDE {
        cells[place] = cell_of(board, cross, dir, Square::on_line(dir, line, place));
    }
    cells
}

/// The cells of all lines of a direction.
pub fn all_cells(board: &Board, cross: &Cross, dir: Dir) -> [[Cell; SIDE]; SIDE]
    ensures { (words : List (List ℕ)) → HasMasks words board.now cross.now
        → (line : ℕ) → line < SIDE → IsLineOf words dir board.now line (slice_index_or result line []) }
{
    let mut lines = [[Cell::Old(0); SIDE]; SIDE];
    for line in 0..SIDE {
        lines[line] = line_cells(board, cross, dir, line);
    }
    lines
}
