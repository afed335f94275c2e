//! The words of a play, square by square, with their sums.
ghost use Rattle.std.specs.Prelude.{◌≡◌, ◌≤◌, length, map, sum_by};
ghost use Rattle.ref_play.specs.Legality.{IsLegal};
ghost use Rattle.ref_play.specs.Words.{items_of};
ghost use Rattle.explain_clues.specs.Words.{worth, sum_in};
ghost use Rattle.explain_clues.specs.Plays.{played_square, word_in, word_by, words_by, full_bonus, IsScoredPlay, IsScoredText};

use crate::laws::law_of_sums;
use crate::words::{ScoredWord, WordSquare, scored_words};
use arrayvec::ArrayVec;
use game_turns::legal_play;
use lex_list::WordList;
use ref_board::{Board, Dir, SIDE, Square};
use ref_play::{Placed, Play, RACK, Word, bonus_score, score, words};
use ref_tiles::{Premium, Rules, Symbol, Tile};

/// The maximum number of words of a play: one along it, and one across each of its tiles.
const WORDS: usize = 8;

/// A square of a word that a play forms.
#[derive(Clone, Copy)]
pub struct PlayedSquare {
    /// The square.
    pub square: Square,
    /// The tile that lies there with the play.
    pub cell: Option<Tile>,
    /// Whether the play puts the tile there.
    pub is_new: bool,
    /// The points of the tile; a blank has none.
    pub points: u8,
    /// The premium that counts: that of the square under a new tile, and none under an old one.
    pub premium: Premium,
    /// The factor of the points.
    pub factor: u32,
    /// What the square adds to the word: the points, times the factor.
    pub adds: u32,
}

/// An empty square, 1A.
impl Default for PlayedSquare {
    ghost use Rattle.std.specs.Prelude.{◌≡◌, None, false};
    ghost use Rattle.ref_tiles.specs.declared.premiums.Premium.TheVariants as premium;

    ghost is_default = { λ s. (s.square ≡ 0) × (s.cell ≡ None) × (s.is_new ≡ false) × (s.points ≡ 0) × (s.premium ≡ premium.Plain) × (s.factor ≡ 0) × (s.adds ≡ 0) };

    fn default() -> PlayedSquare {
        PlayedSquare {
            square: Square::default(),
            cell: None,
            is_new: false,
            points: 0,
            premium: Premium::Plain,
            factor: 0,
            adds: 0,
        }
    }
}

/// A word that a play forms.
#[derive(Drop)]
pub struct PlayedWord {
    /// Its letters, capitals A to Z.
    pub letters: Word,
    /// Whether it is in the word list.
    pub is_listed: bool,
    /// Its squares, in the order of its letters.
    pub squares: ArrayVec<PlayedSquare, SIDE>,
    /// The sum of what they add.
    pub letters_sum: u32,
    /// The product of the word premiums under its new tiles.
    pub factor: u32,
    /// Its score: the sum times the factor.
    pub score: u32,
}

/// No word.
impl Default for PlayedWord {
    ghost use Rattle.std.specs.Prelude.{◌≡◌, []};

    ghost is_default = { λ w. (w.letters.items ≡ []) × (w.squares.items ≡ []) };

    fn default() -> PlayedWord {
        PlayedWord {
            letters: ArrayVec::new(),
            is_listed: false,
            squares: ArrayVec::new(),
            letters_sum: 0,
            factor: 0,
            score: 0,
        }
    }
}

/// The words of a play, up to eight.
pub type PlayedWords = ArrayVec<PlayedWord, WORDS>;

/// The words of a play, and what they add up to.
#[derive(Drop)]
pub struct ScoredPlay {
    /// Its words: that of its direction first, if it has two letters, and then the cross words in the order of the new tiles.
    pub words: PlayedWords,
    /// The bonus, if it puts down seven tiles.
    pub bonus: Option<u32>,
    /// Its score: that of all its words, plus the bonus.
    pub score: i32,
}

/// What a square adds to a word.
fn worth(square: &WordSquare) -> u32
    ensures worth { result ≡ worth square.now }
    ensures limit { result ≤ 765 }
{
    square.points as u32 * square.premium.letter_factor() as u32
}

/// A square of a word, with what it adds.
fn played_square(square: &WordSquare) -> PlayedSquare
    ensures { result ≡ played_square square.now }
{
    PlayedSquare {
        square: square.square,
        cell: square.cell,
        is_new: square.is_new,
        points: square.points,
        premium: square.premium,
        factor: square.premium.letter_factor() as u32,
        adds: worth(square),
    }
}

/// The squares of a word.
fn played_squares(squares: &[WordSquare]) -> ArrayVec<PlayedSquare, SIDE>
    requires { length squares.now ≤ 15 }
    ensures { result.items ≡ map played_square squares.now }
{
    let mut played = ArrayVec::new();
    for square in squares {
        played.push(played_square(square));
    }
    played
}

/// What the squares of a word add up to.
fn letters_sum(squares: &[WordSquare]) -> u32
    requires { length squares.now ≤ 15 }
    ensures { result ≡ sum_by worth squares.now }
{
    let mut sum = 0;
    for square in squares {
        sum += worth(square);
    }
    sum
}

/// A copy of the letters.
fn copied(letters: &[u8]) -> Word
    requires { length letters.now ≤ 15 }
    ensures { result.items ≡ letters.now }
{
    let mut word = ArrayVec::new();
    for letter in letters {
        word.push(*letter);
    }
    word
}

/// A word with its letters, its squares and its sums.
fn played_word(list: &WordList, one: &ScoredWord, letters: &Word) -> PlayedWord
    ensures { word_in result ≡ word_by list.now (sum_in one.now) letters.now.items }
{
    PlayedWord {
        letters: copied(letters.as_slice()),
        is_listed: list.has(letters.as_slice()),
        squares: played_squares(one.squares.as_slice()),
        letters_sum: letters_sum(one.squares.as_slice()),
        factor: one.factor,
        score: one.score,
    }
}

/// The words of a play, in order.
fn played_words(list: &WordList, scored: &[ScoredWord], letters: &[Word]) -> PlayedWords
    requires few { length scored.now ≤ 8 }
    requires each { length scored.now ≡ length letters.now }
    ensures { map word_in result.items ≡ words_by list.now (map sum_in scored.now) (items_of letters.now) }
{
    let mut words = ArrayVec::new();
    for k in 0..scored.len() {
        words.push(played_word(list, &scored[k], &letters[k]));
    }
    words
}

/// The bonus of a play, if it puts down seven tiles.
fn full_bonus(rules: &Rules, tiles: &[Placed]) -> Option<u32>
    ensures { result ≡ full_bonus rules.now tiles.now }
{
    if tiles.len() == RACK {
        Some(bonus_score(rules, tiles))
    } else {
        None
    }
}

/// The words of a legal play, and what they add up to.
#[tactic(auto, using(crate::proofs::WordLaws::play_adds_up))]
fn scored(rules: &Rules, list: &WordList, board: &Board, play: &Play) -> ScoredPlay
    requires { IsLegal board.now play.now.tiles.items }
    ensures { IsScoredPlay rules.now list.now board.now play.now.dir play.now.tiles.items result }
{
    law_of_sums();
    let sums = scored_words(rules, board, play);
    let spelled = words(board, play);
    ScoredPlay {
        words: played_words(list, sums.as_slice(), spelled.as_slice()),
        bonus: full_bonus(rules, &play.tiles),
        score: score(rules, board, play),
    }
}

/// The words of the play that a text names on a board, and what they add up to; none if it does not name a legal play.
pub fn scored_play(
    rules: &Rules,
    list: &WordList,
    board: &Board,
    at: Square,
    dir: Dir,
    word: &[Symbol],
) -> Option<ScoredPlay>
    ensures { IsScoredText rules.now list.now board.now dir at word.now result }
{
    match legal_play(board, at, dir, word) {
        Ok(play) => Some(scored(rules, list, board, &play)),
        Err(_) => None,
    }
}
