//! What a play scores.
ghost use Rattle.std.specs.Prelude.{◌≡◌, ◌+◌, ◌*◌, ◌<◌, ◌≤◌, length, pos, map, sum_by, All};
ghost use Rattle.ref_play.specs.Formed.{is_on};
ghost use Rattle.ref_play.specs.Legality.{IsLegal};
ghost use Rattle.ref_play.specs.Words.{IsWithin};
ghost use Rattle.ref_play.specs.Scores.{points_on, factor_on, square_points, factor_in, letters_score, words_factor, run_score, bonus_score, score_of};

use crate::judging::formed;
use crate::legality::covers;
use crate::placed::Placed;
use crate::plays::{Play, RACK};
use crate::runs::Run;
use crate::texts::along;
use ref_board::{Board, Square};
use ref_tiles::{Rules, Tile};

/// The points of the tile on a square; a blank has none, whatever it stands for.
pub fn points_on(rules: &Rules, cell: Option<Tile>) -> u8
    ensures points { result ≡ points_on rules.now cell }
    ensures limit { result ≤ 99 }
{
    match cell {
        None => 0,
        Some(tile) => rules.points_of(tile.kind),
    }
}

/// The factor for the points of the tile on a square: the letter premium under a new tile, and 1 under an old one.
fn factor_on(rules: &Rules, tiles: &[Placed], square: Square) -> u8
    ensures factor { result ≡ factor_on rules.now tiles.now square }
    ensures limit { result ≤ 3 }
{
    if covers(tiles, square) {
        rules.premium(square.number()).letter_factor()
    } else {
        1
    }
}

/// What a square adds to a word: the points of its tile, a new tile's times the letter premium under it.
fn square_points(rules: &Rules, after: &Board, tiles: &[Placed], square: Square) -> u32
    ensures points { result ≡ square_points rules.now after.now tiles.now square }
    ensures limit { result ≤ 297 }
{
    let points = points_on(rules, after.at(square));
    let factor = factor_on(rules, tiles, square);
    points as u32 * factor as u32
}

/// The points of a word's letters.
fn letters_score(rules: &Rules, after: &Board, tiles: &[Placed], run: &Run) -> u32
    requires { IsWithin run.now }
    ensures points { result ≡ letters_score rules.now after.now tiles.now run.now }
    ensures limit { result ≤ 4455 }
{
    let mut points = 0;
    for k in 0..run.len {
        points += square_points(rules, after, tiles, along(run.start, run.dir, k));
    }
    points
}

/// Whether a square is on a run.
fn is_on(run: &Run, square: Square) -> bool
    requires { IsWithin run.now }
    ensures { result ≡ is_on run.now square }
{
    let start = run.start.place(run.dir);
    let place = square.place(run.dir);
    square.line(run.dir) == run.start.line(run.dir) && start <= place && place < start + run.len
}

/// The factor of a new tile for a word: its word premium if it lies on the word.
fn factor_in(rules: &Rules, run: &Run, placed: &Placed) -> u32
    requires { IsWithin run.now }
    ensures factor { result ≡ factor_in rules.now run.now placed.now }
    ensures limit { result ≤ 3 }
{
    if is_on(run, placed.square) {
        rules.premium(placed.square.number()).word_factor() as u32
    } else {
        1
    }
}

/// The product of the word premiums under the new tiles of a word.
pub fn words_factor(rules: &Rules, tiles: &[Placed], run: &Run) -> u32
    requires within { IsWithin run.now }
    requires few { length tiles.now ≤ 7 }
    ensures factor { result ≡ words_factor rules.now tiles.now run.now }
    ensures limit { result ≤ 2187 }
{
    let mut factor = 1;
    for placed in tiles {
        factor *= factor_in(rules, run, placed);
    }
    factor
}

/// What a word scores.
pub fn run_score(rules: &Rules, after: &Board, tiles: &[Placed], run: &Run) -> u32
    requires within { IsWithin run.now }
    requires few { length tiles.now ≤ 7 }
    ensures score { result ≡ run_score rules.now after.now tiles.now run.now }
    ensures limit { result ≤ 9743085 }
{
    letters_score(rules, after, tiles, run) * words_factor(rules, tiles, run)
}

/// The score of the words of some runs together.
fn runs_score(rules: &Rules, after: &Board, tiles: &[Placed], runs: &[Run]) -> u32
    requires within { All IsWithin runs.now }
    requires few { length tiles.now ≤ 7 }
    requires runs { length runs.now ≤ 8 }
    ensures score { result ≡ sum_by (run_score rules.now after.now tiles.now) runs.now }
    ensures limit { result ≤ 77944680 }
{
    let mut score = 0;
    for run in runs {
        score += run_score(rules, after, tiles, run);
    }
    score
}

/// The bonus for a play of seven tiles.
pub fn bonus_score(rules: &Rules, tiles: &[Placed]) -> u32
    ensures score { result ≡ bonus_score rules.now tiles.now }
    ensures limit { result ≤ 999 }
{
    if tiles.len() == RACK {
        rules.bonus as u32
    } else {
        0
    }
}

/// What a legal play scores: the sum of its words, and the bonus if seven tiles were played. A word scores the points
/// of its letters, each new tile's times its letter premium, times the word premiums under its new tiles. A blank counts
/// 0 points, and the premiums under it still count.
pub fn score(rules: &Rules, board: &Board, play: &Play) -> i32
    requires { IsLegal board.now play.now.tiles.items }
    ensures { result ≡ pos (score_of rules.now board.now play.now.tiles.items) }
{
    let (after, runs) = formed(board, play);
    let words = runs_score(rules, &after, &play.tiles, &runs);
    (words + bonus_score(rules, &play.tiles)) as i32
}
