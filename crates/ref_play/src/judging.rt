//! Whether a play is legal, and laying and lifting its tiles.
ghost use Rattle.std.specs.Prelude.{◌≡◌, ◌↔◌, true, false, IsOk, All};
ghost use Rattle.ref_play.specs.Placements.{with_tiles, without_tiles, are_rising, HasTiles, EmptiesSquares};
ghost use Rattle.ref_play.specs.Formed.{runs_formed};
ghost use Rattle.ref_play.specs.Words.{IsWithin};
ghost use Rattle.first_faults.specs.Checks.{Refuses};
ghost use Rattle.ref_play.specs.Legality.{IsLegal, IsLaid, fault_of, is_too_short, overlaps};

use crate::faults::PlayFault;
use crate::legality::{has_gap, is_apart, misses_centre, overlaps, with_tiles};
use crate::placed::Placed;
use crate::plays::Play;
use crate::runs::{RUNS, Run, runs_of};
use arrayvec::ArrayVec;
use ref_board::{Board, Dir};

/// The board with the tiles of a play that lie on empty squares.
pub fn laid(board: &Board, play: &Play) -> Board
    requires { overlaps board.now play.now.tiles.items ≡ false }
    ensures { result ≡ with_tiles board.now play.now.tiles.items }
{
    with_tiles(board, &play.tiles)
}

/// Whether a play without a gap does not form a run of two tiles.
#[tactic(auto, unfolding(crate::specs::Legality::is_too_short))]
fn is_too_short(after: &Board, dir: Dir, tiles: &[Placed]) -> bool
    requires { IsLaid dir after.now tiles.now }
    ensures { result ≡ is_too_short dir after.now tiles.now }
{
    runs_of(after, dir, tiles).is_empty()
}

/// The tests of a play, in order.
#[tactic(auto, unfolding(crate::specs::Legality::fault_of))]
fn try_play(board: &Board, play: &Play) -> Result<(), PlayFault>
    ensures { Refuses result (fault_of play.now.dir board.now play.now.tiles.items) }
{
    board.law_of_squares();
    if overlaps(board, &play.tiles) {
        return Err(PlayFault::Mismatch);
    }
    let after = laid(board, play);
    if has_gap(&after, play.dir, &play.tiles) {
        return Err(PlayFault::NotWhole);
    }
    if misses_centre(board, &play.tiles) {
        return Err(PlayFault::MissesCentre);
    }
    if is_too_short(&after, play.dir, &play.tiles) {
        return Err(PlayFault::TooShort);
    }
    if is_apart(board, &play.tiles) {
        return Err(PlayFault::Apart);
    }
    Ok(())
}

/// Judges a play by the WESPA rules of placement. It is legal if its tiles lie on empty squares, with no empty
/// square between them, and form a word of at least two letters, and if one of them covers the centre of an empty board
/// or, on any other board, is orthogonally beside a tile that lies there.
///
/// The fault is the first of Mismatch, NotWhole, MissesCentre, TooShort and Apart.
pub fn judge(board: &Board, play: &Play) -> Result<(), PlayFault>
    ensures fault { Refuses result (fault_of play.now.dir board.now play.now.tiles.items) }
    ensures legal { IsOk result ↔ IsLegal board.now play.now.tiles.items }
{
    board.law_of_squares();
    try_play(board, play)
}

/// Puts the tiles of a legal play on the board.
#[tactic(auto, using(crate::proofs::Taking::laid_has))]
pub fn apply(board: &mut Board, play: &Play)
    requires { IsLegal board.old play.now.tiles.items }
    ensures board { board.new ≡ with_tiles board.old play.now.tiles.items }
    ensures there { HasTiles board.new play.now.tiles.items }
{
    board.law_of_squares();
    *board = laid(board, play);
}

/// Takes the tiles of a play off the board that holds them. The squares of the play are then empty, and every other square is as it was.
#[tactic(auto, using(crate::proofs::Taking::without_empties))]
pub fn undo(board: &mut Board, play: &Play)
    requires { HasTiles board.old play.now.tiles.items }
    ensures board { board.new ≡ without_tiles board.old play.now.tiles.items }
    ensures squares { EmptiesSquares play.now.tiles.items board.old board.new }
{
    lift_tiles(board, &play.tiles);
}

/// Takes tiles off the board that holds them.
fn lift_tiles(board: &mut Board, tiles: &[Placed])
    requires rising { are_rising tiles.now ≡ true }
    requires there { HasTiles board.old tiles.now }
    ensures { board.new ≡ without_tiles board.old tiles.now }
{
    for placed in tiles {
        board.lift(placed.square);
    }
}

/// The board with the tiles of a legal play, and the runs that the play forms.
pub fn formed(board: &Board, play: &Play) -> (Board, ArrayVec<Run, RUNS>)
    requires { IsLegal board.now play.now.tiles.items }
    ensures after { result.0 ≡ with_tiles board.now play.now.tiles.items }
    ensures runs { result.1.items
        ≡ runs_formed play.now.dir (with_tiles board.now play.now.tiles.items) play.now.tiles.items }
    ensures within { All IsWithin result.1.items }
{
    board.law_of_squares();
    let after = laid(board, play);
    let runs = runs_of(&after, play.dir, &play.tiles);
    (after, runs)
}
