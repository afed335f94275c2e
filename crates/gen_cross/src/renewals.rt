//! Values that are updated after changes of the board.
ghost use Rattle.std.specs.Prelude.{◌≡◌, ◌+◌, ◌<◌, ℕ, true, List, Option, length, slice_index_or};
ghost use Rattle.ref_tiles.specs.declared.tiles.Tile.{Tile};
ghost use Rattle.ref_board.specs.Lines.{line_of, other_dir};
ghost use Rattle.ref_play.specs.Placements.{is_play};
ghost use Rattle.lex_list.specs.RotatedPaths.{StandsFor};
ghost use Rattle.gen_cross.specs.Values.{no_value, IsValue, AreValues};
ghost use Rattle.gen_cross.specs.Changes.{DifferOn, AgreeBut, AgreeOff, AreWithin};

use crate::crosses::Value;
use crate::stretches::Stretch;
use crate::values::value_of;
use lex_file::PathLex;
use ref_board::{Board, Dir, SIDE, Square};
use ref_play::{Placed, Play};
use ref_tiles::{Rules, SQUARES};

/// Updates, for plays of a direction, the values that depend on the tiles of a play of this direction, each on its own line across
/// the play.
fn renew_tiles<L: PathLex>(
    rules: &Rules,
    board: &Board,
    lex: &L,
    dir: Dir,
    tiles: &[Placed],
    values: &mut [Value; SQUARES],
)
    requires { is_play dir tiles.now ≡ true }
    ensures { (words : List (List ℕ)) (before : List (Option Tile)) → StandsFor (L.language lex.now) words
        → DifferOn tiles.now before board.now
        → AreValues rules.now words dir before values.old → AreValues rules.now words dir board.now values.new }
{
    board.law_of_squares();
    for placed in tiles {
        renew_beside(rules, board, lex, dir, placed.square, values);
    }
}

/// Updates the values that depend on the tiles of a play: for plays along it those on each tile's own line across it, and for plays
/// across it those on its line.
pub fn renew_play<L: PathLex>(
    rules: &Rules,
    board: &Board,
    lex: &L,
    play: &Play,
    along: &mut [Value; SQUARES],
    across: &mut [Value; SQUARES],
)
    ensures along { (words : List (List ℕ)) (before : List (Option Tile)) → StandsFor (L.language lex.now) words
        → DifferOn play.now.tiles.items before board.now
        → AreValues rules.now words play.now.dir before along.old → AreValues rules.now words play.now.dir board.now along.new }
    ensures across { (words : List (List ℕ)) (before : List (Option Tile)) → StandsFor (L.language lex.now) words
        → DifferOn play.now.tiles.items before board.now
        → AreValues rules.now words (other_dir play.now.dir) before across.old
        → AreValues rules.now words (other_dir play.now.dir) board.now across.new }
{
    renew_tiles(rules, board, lex, play.dir, &play.tiles, along);
    let stretch = stretch_of(play.dir, &play.tiles);
    renew_stretch(rules, board, lex, play.dir.other(), &stretch, across);
}

/// The stretch of a line from the first tile of a play of its direction to the last.
fn stretch_of(dir: Dir, tiles: &[Placed]) -> Stretch
    requires { is_play dir tiles.now ≡ true }
    ensures dir { result.dir ≡ dir }
    ensures some { result.first < result.end }
    ensures within { AreWithin tiles.now result }
{
    let first = tiles[0].square;
    let last = tiles[tiles.len() - 1].square;
    Stretch {
        dir,
        line: first.line(dir),
        first: first.place(dir),
        end: last.place(dir) + 1,
    }
}

/// Updates, for plays of a direction, the values that depend on the contents of a stretch across it: those of the stretch, of the
/// runs that begin or end in it, and of the places next to these.
fn renew_stretch<L: PathLex>(
    rules: &Rules,
    board: &Board,
    lex: &L,
    dir: Dir,
    stretch: &Stretch,
    values: &mut [Value; SQUARES],
)
    requires across { stretch.now.dir ≡ other_dir dir }
    requires some { stretch.now.first < stretch.now.end }
    ensures { (words : List (List ℕ)) (before : List (Option Tile)) (other : ℕ) → StandsFor (L.language lex.now) words
        → length before ≡ length board.now → other < SQUARES
        → AgreeOff dir stretch.now.line stretch.now.first stretch.now.end other before board.now
        → IsValue rules.now words dir before other (slice_index_or values.old other no_value)
        → IsValue rules.now words dir board.now other (slice_index_or values.new other no_value) }
{
    board.law_of_squares();
    let line = stretch.line;
    let low = board
        .first_of_run(stretch.dir, line, stretch.first)
        .saturating_sub(1);
    let end = board.end_of_run(stretch.dir, line, stretch.end - 1);
    for place in low..(end + 1).min(SIDE) {
        let square = Square::on_line(stretch.dir, line, place);
        renew_value(rules, board, lex, dir, square, values);
    }
}

/// Updates, for plays of a direction, the values that depend on the content of one square. They lie on the line across the play
/// through the square: its own value, and those of the places next to the run through it, or to the runs beside it if it is empty.
/// At the edge of the board the last place is used instead of the one beyond it.
pub fn renew_beside<L: PathLex>(
    rules: &Rules,
    board: &Board,
    lex: &L,
    dir: Dir,
    square: Square,
    values: &mut [Value; SQUARES],
)
    ensures near { (words : List (List ℕ)) (before : List (Option Tile)) (other : ℕ) → StandsFor (L.language lex.now) words
        → length before ≡ length board.now → other < SQUARES
        → AgreeBut dir square other before board.now
        → IsValue rules.now words dir before other (slice_index_or values.old other no_value)
        → IsValue rules.now words dir board.now other (slice_index_or values.new other no_value) }
    ensures far { (other : ℕ) → (line_of (other_dir dir) other ≡ line_of (other_dir dir) square → ⊥)
        → slice_index_or values.new other no_value ≡ slice_index_or values.old other no_value }
{
    board.law_of_squares();
    let across = dir.other();
    let line = square.line(across);
    let place = square.place(across);
    let low = board.first_of_run(across, line, place).saturating_sub(1);
    let high = board.end_of_run(across, line, place).min(SIDE - 1);
    renew_value(rules, board, lex, dir, square, values);
    renew_value(
        rules,
        board,
        lex,
        dir,
        Square::on_line(across, line, low),
        values,
    );
    renew_value(
        rules,
        board,
        lex,
        dir,
        Square::on_line(across, line, high),
        values,
    );
}

/// Updates the value of one square for plays of a direction, and no other.
fn renew_value<L: PathLex>(
    rules: &Rules,
    board: &Board,
    lex: &L,
    dir: Dir,
    square: Square,
    values: &mut [Value; SQUARES],
)
    ensures value { (words : List (List ℕ)) → StandsFor (L.language lex.now) words → (other : ℕ) → other < SQUARES
        → ((other ≡ square → ⊥) → IsValue rules.now words dir board.now other (slice_index_or values.old other no_value))
        → IsValue rules.now words dir board.now other (slice_index_or values.new other no_value) }
    ensures others { (other : ℕ) → (other ≡ square → ⊥)
        → slice_index_or values.new other no_value ≡ slice_index_or values.old other no_value }
{
    values[square.number()] = value_of(rules, board, lex, dir, square);
}
