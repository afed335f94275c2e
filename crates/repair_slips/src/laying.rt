//! The tiles of a play, laid from its square on over the tiles on the board.
ghost use Rattle.std.specs.Prelude.{◌≡◌, ◌<◌, ◌≤◌, ◌++◌, length, map, OnOk};
ghost use Rattle.ref_tiles.specs.Symbols.{byte_of};
ghost use Rattle.repair_slips.specs.Laying.{is_tile, tiles_of, occupied_from, laid_over, laid_text, same_text, is_other_laying, laid_as, laying_slips};

use crate::adding::add;
use arrayvec::ArrayVec;
use gcg_read::Text;
use ref_board::{Board, Dir, SIDE, Square};
use ref_tiles::Symbol;
use repair_changes::{Slip, SpellingSlip};
use std::alloc::AllocError;

/// Whether a symbol is a tile, and not a dot.
fn is_tile(symbol: Symbol) -> bool
    ensures { result ≡ is_tile symbol }
{
    match symbol {
        Symbol::Dot => false,
        Symbol::Letter(_) | Symbol::Blank(_) => true,
    }
}

/// The tiles of a text.
#[tactic(auto, unfolding(crate::specs::Laying::tiles_of))]
fn tiles_of(word: &[Symbol]) -> ArrayVec<Symbol, SIDE>
    requires { length word.now ≤ 15 }
    ensures { result.items ≡ tiles_of word.now }
{
    let mut tiles = ArrayVec::new();
    for symbol in word {
        if is_tile(*symbol) {
            tiles.push(*symbol);
        }
    }
    tiles
}

/// The text of tiles that lie on the free squares of a line, one after another, from a place on.
fn laid_over(
    board: &Board,
    dir: Dir,
    line: usize,
    first: usize,
    tiles: &[Symbol],
) -> ArrayVec<Symbol, SIDE>
    requires line { line < 15 }
    requires first { first < 15 }
    ensures { result.items ≡ laid_over (occupied_from board.now dir line first) tiles.now }
{
    let mut laid = ArrayVec::new();
    let mut used = 0;
    for place in first..SIDE {
        if board.at(Square::on_line(dir, line, place)).is_some() {
            laid.push(Symbol::Dot);
            continue;
        }
        if used == tiles.len() {
            return laid;
        }
        laid.push(tiles[used]);
        used += 1;
    }
    laid
}

/// The bytes that write a text.
fn bytes_of(word: &[Symbol]) -> ArrayVec<u8, SIDE>
    requires { length word.now ≤ 15 }
    ensures { result.items ≡ map byte_of word.now }
{
    let mut bytes = ArrayVec::new();
    for symbol in word {
        bytes.push(symbol.byte());
    }
    bytes
}

/// Whether two texts have the same symbols.
fn same_text(word: &[Symbol], other: &[Symbol]) -> bool
    requires word { length word.now ≤ 15 }
    requires other { length other.now ≤ 15 }
    ensures { result ≡ same_text word.now other.now }
{
    let own = bytes_of(word);
    let others = bytes_of(other);
    own.as_slice() == others.as_slice()
}

/// Whether a text has as many tiles as another, and is not that one.
fn is_other_laying(word: &[Symbol], laid: &[Symbol]) -> bool
    requires word { length word.now ≤ 15 }
    requires laid { length laid.now ≤ 15 }
    ensures { result ≡ is_other_laying word.now laid.now }
{
    !laid.is_empty() && tiles_of(laid).len() == tiles_of(word).len() && !same_text(laid, word)
}

/// Adds a text in place of another one, if it has the same tiles.
fn push_laid(slips: &mut Vec<Slip>, word: &[Symbol], laid: &[Symbol]) -> Result<(), AllocError>
    requires word { length word.now ≤ 15 }
    requires laid { length laid.now ≤ 15 }
    ensures { OnOk result (slips.new.items ≡ slips.old.items ++ laid_as word.now laid.now) }
{
    if !is_other_laying(word, laid) {
        return Ok(());
    }
    match Text::new(laid) {
        Some(text) => add(slips, Slip::Spelling(SpellingSlip::Laid(text))),
        None => Ok(()),
    }
}

/// Adds the text of a play's own tiles from its square on, if it is a different one.
#[tactic(auto, unfolding(crate::specs::Laying::laying_slips))]
pub(crate) fn push_laying(
    slips: &mut Vec<Slip>,
    board: &Board,
    dir: Dir,
    at: Square,
    word: &[Symbol],
) -> Result<(), AllocError>
    requires { length word.now ≤ 15 }
    ensures { OnOk result (slips.new.items ≡ slips.old.items ++ laying_slips board.now dir at word.now) }
{
    let tiles = tiles_of(word);
    let laid = laid_over(board, dir, at.line(dir), at.place(dir), &tiles);
    push_laid(slips, word, &laid)
}
