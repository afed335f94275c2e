//! The square next to another one.
ghost use Rattle.std.specs.Prelude.{◌≡◌};
ghost use Rattle.repair_sheets.specs.Squares.{remaining_of, right_of, above, below, next_square};

use crate::slips::Way;
use ref_board::{Dir, SIDE, Square};

/// The square to the left of another one, if there is one.
fn remaining_of(at: Square) -> Option<Square>
    ensures { result ≡ remaining_of at }
{
    let column = at.column();
    if column == 0 {
        return None;
    }
    Some(Square::on_line(Dir::Across, at.row(), column - 1))
}

/// The square to the right of another one, if there is one.
fn right_of(at: Square) -> Option<Square>
    ensures { result ≡ right_of at }
{
    let column = at.column();
    if column + 1 == SIDE {
        return None;
    }
    Some(Square::on_line(Dir::Across, at.row(), column + 1))
}

/// The square above another one, if there is one.
fn above(at: Square) -> Option<Square>
    ensures { result ≡ above at }
{
    let row = at.row();
    if row == 0 {
        return None;
    }
    Some(Square::on_line(Dir::Across, row - 1, at.column()))
}

/// The square below another one, if there is one.
fn below(at: Square) -> Option<Square>
    ensures { result ≡ below at }
{
    let row = at.row();
    if row + 1 == SIDE {
        return None;
    }
    Some(Square::on_line(Dir::Across, row + 1, at.column()))
}

/// The square next to another one, if the board has it.
pub(crate) fn next_square(way: Way, at: Square) -> Option<Square>
    ensures { result ≡ next_square way at }
{
    match way {
        Way::Left => remaining_of(at),
        Way::Right => right_of(at),
        Way::Up => above(at),
        Way::Down => below(at),
    }
}
