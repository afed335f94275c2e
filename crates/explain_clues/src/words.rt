//! The words of a play, each with its squares and its score.
ghost use Rattle.std.specs.Prelude.{◌≡◌, ◌≤◌, length, map, All, if◌then◌else◌};
ghost use Rattle.ref_tiles.specs.declared.premiums.Premium.TheVariants as premium;
ghost use Rattle.ref_tiles.specs.Rulebook.{premium_at};
ghost use Rattle.ref_play.specs.Legality.{IsLegal};
ghost use Rattle.ref_play.specs.Words.{IsWithin};
ghost use Rattle.explain_clues.specs.Words.{word_square, squares_on, word_sum, sum_in, word_sums};

use arrayvec::ArrayVec;
use ref_board::{Board, SIDE, Square};
use ref_play::{Placed, Play, Run, along, covers, formed, points_on, run_score, words_factor};
use ref_tiles::{Premium, Rules, Tile};

/// The maximum number of words of a play: one along it, and one across each of its tiles.
const WORDS: usize = 8;

/// A square of a word that a play forms. It adds the points, times the letter premium.
#[derive(Clone, Copy)]
pub struct WordSquare {
    /// The square.
    pub square: Square,
    /// The tile that lies there with the play.
    pub cell: Option<Tile>,
    /// Whether the play puts the tile there.
    pub is_new: bool,
    /// The points of the tile; a blank has none.
    pub points: u8,
    /// The premium that counts: that of the square under a new tile, and none under an old one.
    pub premium: Premium,
}

/// An empty square, 1A.
impl Default for WordSquare {
    ghost use Rattle.std.specs.Prelude.{◌≡◌, None, false};
    ghost use Rattle.ref_tiles.specs.declared.premiums.Premium.TheVariants as premium;

    ghost is_default = { λ s. (s.square ≡ 0) × (s.cell ≡ None) × (s.is_new ≡ false) × (s.points ≡ 0) × (s.premium ≡ premium.Plain) };

    fn default() -> WordSquare {
        WordSquare {
            square: Square::default(),
            cell: None,
            is_new: false,
            points: 0,
            premium: Premium::Plain,
        }
    }
}

/// A word that a play forms.
#[derive(Drop)]
pub struct ScoredWord {
    /// The run of its tiles.
    pub run: Run,
    /// Its squares, in the order of its letters.
    pub squares: ArrayVec<WordSquare, SIDE>,
    /// The product of the word premiums under its new tiles.
    pub factor: u32,
    /// Its score.
    pub score: u32,
}

/// No word.
impl Default for ScoredWord {
    ghost use Rattle.std.specs.Prelude.{◌≡◌, []};

    ghost is_default = { λ w. (w.squares.items ≡ []) × (w.factor ≡ 0) × (w.score ≡ 0) };

    fn default() -> ScoredWord {
        ScoredWord {
            run: Run::default(),
            squares: ArrayVec::new(),
            factor: 0,
            score: 0,
        }
    }
}

/// The words of a play, up to eight.
pub type ScoredWords = ArrayVec<ScoredWord, WORDS>;

/// The premium that counts on a square, by whether its tile is new.
fn premium_under(rules: &Rules, square: Square, is_new: bool) -> Premium
    ensures { result ≡ if is_new then premium_at rules.now square else premium.Plain }
{
    if is_new {
        rules.premium(square.number())
    } else {
        Premium::Plain
    }
}

/// A square of a word. `after` is the board with the tiles of the play.
fn word_square(rules: &Rules, after: &Board, tiles: &[Placed], square: Square) -> WordSquare
    ensures { result ≡ word_square rules.now after.now tiles.now square }
{
    let cell = after.at(square);
    let is_new = covers(tiles, square);
    WordSquare {
        square,
        cell,
        is_new,
        points: points_on(rules, cell),
        premium: premium_under(rules, square, is_new),
    }
}

/// The squares of a run.
#[tactic(auto, using(ref_play::proofs::Ranges::map_range_more), unfolding(crate::specs::Words::squares_on))]
fn squares_on(
    rules: &Rules,
    after: &Board,
    tiles: &[Placed],
    run: &Run,
) -> ArrayVec<WordSquare, SIDE>
    requires { IsWithin run.now }
    ensures { result.items ≡ squares_on rules.now after.now tiles.now run.now }
{
    let mut squares = ArrayVec::new();
    for k in 0..run.len {
        squares.push(word_square(rules, after, tiles, along(run.start, run.dir, k)));
    }
    squares
}

/// The word of a run.
fn scored_word(rules: &Rules, after: &Board, tiles: &[Placed], run: &Run) -> ScoredWord
    requires within { IsWithin run.now }
    requires few { length tiles.now ≤ 7 }
    ensures { sum_in result ≡ word_sum rules.now after.now tiles.now run.now }
{
    ScoredWord {
        run: *run,
        squares: squares_on(rules, after, tiles, run),
        factor: words_factor(rules, tiles, run),
        score: run_score(rules, after, tiles, run),
    }
}

/// The words of runs, in their order.
fn words_on(rules: &Rules, after: &Board, tiles: &[Placed], runs: &[Run]) -> ScoredWords
    requires within { All IsWithin runs.now }
    requires few { length tiles.now ≤ 7 }
    requires runs { length runs.now ≤ 8 }
    ensures { map sum_in result.items ≡ map (word_sum rules.now after.now tiles.now) runs.now }
{
    let mut words = ArrayVec::new();
    for run in runs {
        words.push(scored_word(rules, after, tiles, run));
    }
    words
}

/// The words that a legal play forms, each with its squares and its score: that of its direction first, if it has two letters, and
/// then the cross words in the order of the new tiles. Their scores, plus the bonus, are what the play scores
/// ([`law_of_sums`](crate::law_of_sums)).
#[tactic(auto, unfolding(crate::specs::Words::word_sums))]
pub fn scored_words(rules: &Rules, board: &Board, play: &Play) -> ScoredWords
    requires { IsLegal board.now play.now.tiles.items }
    ensures { map sum_in result.items ≡ word_sums rules.now play.now.dir board.now play.now.tiles.items }
{
    let (after, runs) = formed(board, play);
    words_on(rules, &after, &play.tiles, &runs)
}
