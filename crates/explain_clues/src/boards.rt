//! The board before a line, square by square, with those of a play marked.
ghost use Rattle.std.specs.Prelude.{◌≡◌, IfOk};
ghost use Rattle.explain_clues.specs.Boards.{covers, is_marked, shown_square, shown_squares};

use game_board::square_mark;
use gcg_read::EventKind;
use ref_board::{Board, Dir, SIDE, Square};
use ref_tiles::{Rules, SQUARES};
use std::alloc::{AllocError, Global};

/// A square of a board as it is shown.
#[derive(Clone, Copy)]
pub struct ShownSquare {
    /// The letter of its tile, a capital, or a small one for a blank; if it is empty, the mark of its premium.
    pub mark: u8,
    /// Whether the play covers it.
    pub is_marked: bool,
}

/// Whether a text of `many` symbols covers a square: one on its line, from its first square on.
fn covers(at: Square, dir: Dir, many: usize, square: Square) -> bool
    ensures { result ≡ covers at dir many square }
{
    let first = at.place(dir);
    let place = square.place(dir);
    square.line(dir) == at.line(dir) && first <= place && place - first < many
}

/// Whether a square is one of those that the play of an event covers.
fn is_marked(kind: &EventKind, square: Square) -> bool
    ensures { result ≡ is_marked kind.now square }
{
    match kind {
        EventKind::Play { at, dir, word } => covers(*at, *dir, word.as_slice().len(), square),
        _ => false,
    }
}

/// A square of a board as it is shown.
fn shown_square(rules: &Rules, board: &Board, kind: &EventKind, square: Square) -> ShownSquare
    ensures { result ≡ shown_square rules.now board.now kind.now square }
{
    ShownSquare {
        mark: square_mark(rules, board, square),
        is_marked: is_marked(kind, square),
    }
}

/// The squares of a board, row by row from 1A, with those that the play of an event covers marked.
///
/// It fails only if memory runs out.
#[tactic(auto, unfolding(crate::specs::Boards::shown_squares))]
pub fn shown_board(
    alloc: Global,
    rules: &Rules,
    board: &Board,
    kind: &EventKind,
) -> Result<Vec<ShownSquare>, AllocError>
    ensures { IfOk result (λ squares. squares.items ≡ shown_squares rules.now board.now kind.now) }
{
    let mut squares = Vec::new(alloc);
    for number in 0..SQUARES {
        let square = Square::on_line(Dir::Across, number / SIDE, number % SIDE);
        squares.push(shown_square(rules, board, kind, square))?;
    }
    Ok(squares)
}
