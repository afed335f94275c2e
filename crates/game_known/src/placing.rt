//! Which place of a table a board and a rack have. This only affects how often something that is kept is found again.
ghost use Rattle.std.specs.Prelude.{◌<◌, ◌≡◌, IfSome, None};

use ref_board::Board;
use ref_tiles::{Counts, Tile};

/// What a number is multiplied by before the next is added.
const FACTOR: usize = 6364136223846793005;

/// How many of the lower bits of a mixed number are left out.
const LOW_BITS: usize = 1 << 33;

/// A number for what is on a square.
fn number_on(square: &Option<Tile>) -> usize {
    match square {
        Some(tile) => tile.shown.index as usize + 1,
        None => 0,
    }
}

/// A number for the tiles of a board.
fn mixed_board(board: &Board) -> usize {
    let mut mixed = 0usize;
    for square in board.cells() {
        mixed = mixed.wrapping_mul(FACTOR).wrapping_add(number_on(square));
    }
    mixed
}

/// The same mixed with the tiles of a rack.
fn mixed_rack(mixed: usize, rack: &Counts) -> usize {
    let mut mixed = mixed;
    let numbers = rack.numbers();
    for number in &numbers {
        mixed = mixed.wrapping_mul(FACTOR).wrapping_add(*number as usize);
    }
    mixed
}

/// The place of a board and a rack among `places`; none if there is no place.
pub(crate) fn place_of(board: &Board, rack: &Counts, places: usize) -> Option<usize>
    ensures { IfSome result (λ place. place < places) }
{
    if places == 0 {
        return None;
    }
    Some(mixed_rack(mixed_board(board), rack) / LOW_BITS % places)
}
