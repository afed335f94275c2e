//! The tiles that are not on the board.
ghost use Rattle.std.specs.Prelude.{◌≡◌, ◌<◌, ◌≤◌, IfOk, count_by};
ghost use Rattle.game_board.specs.Tiles.{is_of, off_board, kinds_off, all_off};

use ref_board::Board;
use ref_tiles::{KINDS, Rules, Tile};
use std::alloc::{AllocError, Global};

/// Whether a tile of the kind with this number lies on a square.
fn is_of(cell: Option<Tile>, number: usize) -> bool
    ensures { result ≡ is_of number cell }
{
    match cell {
        None => false,
        Some(tile) => tile.kind.number() == number,
    }
}

/// The number of tiles of a kind on the board.
fn laid_of(board: &Board, number: usize) -> usize
    ensures { result ≡ count_by (is_of number) board.now }
{
    board
        .cells()
        .iter()
        .filter(|cell| is_of(**cell, number))
        .count()
}

/// The number of tiles of a kind that are not on the board: those of the game minus those on the board, or 0 if that is negative.
#[tactic(auto, unfolding(crate::specs::Tiles::off_board))]
pub fn off_board(rules: &Rules, board: &Board, number: usize) -> usize
    requires { number < 27 }
    ensures number { result ≡ off_board rules.now board.now number }
    ensures small { result < 256 }
{
    let numbers = rules.counts.numbers();
    (numbers[number] as usize).saturating_sub(laid_of(board, number))
}

/// The number of tiles of each kind that are not on the board, A to Z and then blanks.
///
/// It fails only if memory runs out.
#[tactic(auto, using(ref_play::proofs::Ranges::map_range_more), unfolding(crate::specs::Tiles::kinds_off))]
pub fn kinds_off(alloc: Global, rules: &Rules, board: &Board) -> Result<Vec<usize>, AllocError>
    ensures { IfOk result (λ off. off.items ≡ kinds_off rules.now board.now 27) }
{
    let mut off = Vec::new(alloc);
    for number in 0..KINDS {
        off.push(off_board(rules, board, number))?;
    }
    Ok(off)
}

/// The number of tiles of all kinds that are not on the board.
#[tactic(auto, using(crate::proofs::Lines::off_none, crate::proofs::Lines::off_more))]
pub fn tiles_off(rules: &Rules, board: &Board) -> usize
    ensures { result ≡ all_off rules.now board.now 27 }
{
    let mut total = 0;
    for number in 0..KINDS {
        total += off_board(rules, board, number);
    }
    total
}
