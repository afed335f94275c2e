//! The notation of a play, and which of two comes first.
ghost use Rattle.std.specs.Prelude.{◌≡◌, ◌↔◌, true, IsTrue, [], ◌∷◌};
ghost use Rattle.ref_board.specs.{declared.directions.Dir.TheVariants.{Across}, Cells.{holds}, Runs.{IsRunThrough}};
ghost use Rattle.ref_play.specs.{Placements.{with_tiles, are_in_line}, Formed.{runs_along}, Words.{IsWithin}, Legality.{IsLegal}, Directions.{direction_of}, Notations.{symbol_by, symbol_for, tile_in, text_on, notation_of, written, ComesBefore}};

use crate::judging::laid;
use crate::notations::Notation;
use crate::placed::Placed;
use crate::plays::Play;
use crate::runs::Run;
use crate::texts::along;
use arrayvec::ArrayVec;
use ref_board::{Board, Dir, SIDE, Square};
use ref_tiles::{Kind, Symbol, Tile};

/// The symbol of a tile: a capital for a letter tile, and for a blank the small letter that it shows.
pub fn symbol_by(tile: &Tile) -> Symbol
    ensures { result ≡ symbol_by tile.now.kind tile.now.shown }
{
    match tile.kind {
        Kind::Letter(_) => Symbol::Letter(tile.shown),
        Kind::Blank => Symbol::Blank(tile.shown),
    }
}

/// The new tile that a placement puts on a square.
fn tile_in(tiles: &[Placed], square: Square) -> Option<Tile>
    ensures { result ≡ tile_in tiles.now square }
{
    tiles
        .iter()
        .find(|placed| placed.square == square)
        .map(|placed| placed.tile)
}

/// The symbol of a square in the text of a play: that of its new tile, or a dot if it has none.
fn symbol_for(tiles: &[Placed], square: Square) -> Symbol
    ensures { result ≡ symbol_for (tile_in tiles.now square) }
{
    match tile_in(tiles, square) {
        None => Symbol::Dot,
        Some(tile) => symbol_by(&tile),
    }
}

/// The text of a play on a run.
#[tactic(auto, using(crate::proofs::Ranges::map_range_more))]
fn text_on(tiles: &[Placed], run: &Run) -> ArrayVec<Symbol, SIDE>
    requires { IsWithin run.now }
    ensures { result.items ≡ text_on tiles.now run.now }
{
    let mut word = ArrayVec::new();
    for k in 0..run.len {
        word.push(symbol_for(tiles, along(run.start, run.dir, k)));
    }
    word
}

/// Whether the tiles of a play lie in one row.
fn lies_across(play: &Play) -> bool
    ensures { result ≡ are_in_line Across play.now.tiles.items }
{
    match play.dir {
        Dir::Across => true,
        Dir::Down => play.tiles.len() == 1,
    }
}

/// The run of a direction through a square that has a tile; a tile without neighbours is a run of one.
fn run_through(after: &Board, square: Square, dir: Dir) -> Run
    requires { holds after.now square ≡ true }
    ensures dir { result.dir ≡ dir }
    ensures run { IsRunThrough after.now dir square result.start result.len }
{
    let (start, len) = after.run(square, dir);
    Run { start, dir, len }
}

/// The run of a legal play in the direction in which it is written. A play of one tile is written along its
/// run across, if that has two tiles, and otherwise along its run down.
fn run_written(board: &Board, play: &Play) -> Run
    requires { IsLegal board.now play.now.tiles.items }
    ensures run { runs_along (direction_of board.now play.now.tiles.items)
        (with_tiles board.now play.now.tiles.items) play.now.tiles.items ≡ result ∷ [] }
    ensures within { IsWithin result }
{
    board.law_of_squares();
    let after = laid(board, play);
    let first = play.tiles[0].square;
    let across = run_through(&after, first, Dir::Across);
    if lies_across(play) && across.len > 1 {
        across
    } else {
        run_through(&after, first, Dir::Down)
    }
}

/// The notation of a legal play.
pub fn notation(board: &Board, play: &Play) -> Notation
    requires { IsLegal board.now play.now.tiles.items }
    ensures { written result ≡ notation_of board.now play.now.tiles.items }
{
    let run = run_written(board, play);
    Notation {
        dir: run.dir,
        at: run.start,
        word: text_on(&play.tiles, &run),
    }
}

/// Whether one legal play of a board comes before another by their notations: across before down, then by the first
/// square, row by row, and then by the bytes of the word, capitals before small letters.
pub fn before(board: &Board, a: &Play, b: &Play) -> bool
    requires legal_a { IsLegal board.now a.now.tiles.items }
    requires legal_b { IsLegal board.now b.now.tiles.items }
    ensures { IsTrue result ↔ ComesBefore board.now a.now.tiles.items b.now.tiles.items }
{
    notation(board, a) < notation(board, b)
}
