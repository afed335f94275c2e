//! What is on the squares of a best play before it is laid.
ghost use Rattle.std.specs.Prelude.{◌≡◌, ◌+◌, ◌≤◌, IfOk};
ghost use Rattle.ref_board.specs.Lines.{place_of};
ghost use Rattle.sheet_scores.specs.Unders.{cells_from, cells_on, cells_under};

use game_bests::TurnBest;
use ref_board::{Board, Dir, SIDE, Square};
use ref_play::along;
use ref_tiles::Tile;
use std::alloc::{AllocError, Global};

/// What is on successive squares of a board.
#[tactic(auto, using(ref_play::proofs::Ranges::map_range_more), unfolding(crate::specs::Unders::cells_from))]
fn cells_from(
    alloc: Global,
    board: &Board,
    at: Square,
    dir: Dir,
    many: usize,
) -> Result<Vec<Option<Tile>>, AllocError>
    requires { place_of dir at + many ≤ 15 }
    ensures { IfOk result (λ cells. cells.items ≡ cells_from board.now at dir many) }
{
    let mut cells = Vec::new(alloc);
    for k in 0..many {
        cells.push(board.at(along(at, dir, k)))?;
    }
    Ok(cells)
}

/// What is on the squares of the text of a play; nothing if it leaves the board.
fn cells_on(
    alloc: Global,
    board: &Board,
    at: Square,
    dir: Dir,
    many: usize,
) -> Result<Vec<Option<Tile>>, AllocError>
    ensures { IfOk result (λ cells. cells.items ≡ cells_on board.now at dir many) }
{
    if many > SIDE - at.place(dir) {
        return Ok(Vec::new(alloc));
    }
    cells_from(alloc, board, at, dir, many)
}

/// What is on the squares of a best play before it is laid; nothing if there is none.
pub(crate) fn cells_under(
    alloc: Global,
    board: &Board,
    best: &TurnBest,
) -> Result<Vec<Option<Tile>>, AllocError>
    ensures { IfOk result (λ cells. cells.items ≡ cells_under board.now best.now) }
{
    match best {
        TurnBest::NoTurn | TurnBest::NotShown | TurnBest::NoPlay => Ok(Vec::new(alloc)),
        TurnBest::Best(best) => {
            let written = &best.written;
            cells_on(alloc, board, written.at, written.dir, written.word.len())
        }
    }
}
