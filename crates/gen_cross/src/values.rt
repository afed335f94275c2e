//! What a square is for plays of one direction: its letters and the points beside it.
ghost use Rattle.std.specs.Prelude.{◌≡◌, ◌+◌, ◌≤◌, ℕ, List};
ghost use Rattle.ref_board.specs.Lines.{place_of};
ghost use Rattle.lex_list.specs.RotatedPaths.{StandsFor};
ghost use Rattle.ref_play.specs.Crosses.{old_points};
ghost use Rattle.gen_cross.specs.Values.{no_value, IsValue};
ghost use Rattle.gen_cross.specs.CrossRuns.{IsRunWith};

use crate::crosses::Value;
use crate::masks::{LETTERS, mask_of};
use lex_file::PathLex;
use ref_board::{Board, Dir, SIDE, Square};
use ref_play::{Run, along, points_on};
use ref_tiles::Rules;

/// The value of an occupied square: no letter and no points.
pub fn nothing() -> Value
    ensures { result ≡ no_value }
{
    Value {
        mask: [false; LETTERS],
        side: 0,
    }
}

/// The value of one square for plays of a direction. The lexicon is walked only if a tile lies beside the square, across the direction.
pub fn value_of<L: PathLex>(
    rules: &Rules,
    board: &Board,
    lex: &L,
    dir: Dir,
    square: Square,
) -> Value
    ensures { (words : List (List ℕ)) → StandsFor (L.language lex.now) words → IsValue rules.now words dir board.now square result }
{
    if board.at(square).is_some() {
        return nothing();
    }
    let run = run_with(board, dir.other(), square);
    if run.len < 2 {
        return Value {
            mask: [true; LETTERS],
            side: 0,
        };
    }
    Value {
        mask: mask_of(board, lex, square, &run),
        side: side_of(rules, board, &run),
    }
}

/// The run through a square once a tile lies there.
#[tactic(auto, using(crate::proofs::RunsWith::run_with_is))]
fn run_with(board: &Board, dir: Dir, square: Square) -> Run
    ensures run { IsRunWith board.now square result }
    ensures dir { result.dir ≡ dir }
{
    board.law_of_squares();
    let line = square.line(dir);
    let place = square.place(dir);
    let first = board.first_of_run(dir, line, place);
    let end = board.end_of_run(dir, line, place);
    Run {
        start: Square::on_line(dir, line, first),
        dir,
        len: end - first,
    }
}

/// The points of the tiles that lie on a run; an empty square has none.
fn side_of(rules: &Rules, board: &Board, run: &Run) -> u16
    requires { place_of run.now.dir run.now.start + run.now.len ≤ SIDE }
    ensures { result ≡ old_points rules.now board.now run.now }
{
    let mut points = 0;
    for k in 0..run.len {
        points += points_on(rules, board.at(along(run.start, run.dir, k))) as u16;
    }
    points
}
