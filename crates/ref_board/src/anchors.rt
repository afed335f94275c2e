//! Tiles next to a square or to a stretch of a line.
ghost use Rattle.std.specs.Prelude.{◌≡◌, ◌≤◌};
ghost use Rattle.ref_board.specs.Anchors.{follows_tile, precedes_tile, touches};

use crate::boards::Board;
use crate::directions::Dir;
use crate::squares::Square;
use ref_tiles::SIDE;

/// Whether the square before this one on its line has a tile.
pub fn follows_tile(board: &Board, dir: Dir, square: Square) -> bool
    ensures { result ≡ follows_tile dir board.now square }
{
    let line = square.line(dir);
    let place = square.place(dir);
    place > 0 && board.at(Square::on_line(dir, line, place - 1)).is_some()
}

/// Whether the place at a distance after this square on its line has a tile.
pub fn precedes_tile(board: &Board, dir: Dir, square: Square, len: usize) -> bool
    requires { len ≤ 15 }
    ensures { result ≡ precedes_tile dir board.now square len }
{
    let line = square.line(dir);
    let place = square.place(dir) + len;
    place < SIDE && board.at(Square::on_line(dir, line, place)).is_some()
}

/// Whether an orthogonal neighbour of a square has a tile.
pub fn touches(board: &Board, square: Square) -> bool
    ensures { result ≡ touches board.now square }
{
    follows_tile(board, Dir::Across, square)
        || precedes_tile(board, Dir::Across, square, 1)
        || follows_tile(board, Dir::Down, square)
        || precedes_tile(board, Dir::Down, square, 1)
}
