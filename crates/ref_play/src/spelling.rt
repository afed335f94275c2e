//! The words that a play forms.
ghost use Rattle.std.specs.Prelude.{◌≡◌, ◌+◌, ◌≤◌, length, map, All};
ghost use Rattle.ref_board.specs.Lines.{place_of};
ghost use Rattle.ref_play.specs.Legality.{IsLegal};
ghost use Rattle.ref_play.specs.Words.{capital_shown, letters_of, words_formed, items_of, IsWithin};

use crate::judging::formed;
use crate::plays::Play;
use crate::runs::{RUNS, Run};
use crate::texts::along;
use arrayvec::ArrayVec;
use ref_board::{Board, SIDE};
use ref_tiles::Tile;

/// A word: capitals A to Z.
pub type Word = ArrayVec<u8, SIDE>;

/// The words of a play, up to eight.
pub type Words = ArrayVec<Word, RUNS>;

/// The letter that a square shows, as a capital; 0 if it is empty.
fn capital_shown(cell: Option<Tile>) -> u8
    ensures { result ≡ capital_shown cell }
{
    match cell {
        None => 0,
        Some(tile) => tile.shown.capital(),
    }
}

/// The letters shown on a run.
#[tactic(auto, using(crate::proofs::Ranges::map_range_more), unfolding(crate::specs::Words::letters_of))]
fn letters_of(after: &Board, run: &Run) -> Word
    requires { IsWithin run.now }
    ensures { result.items ≡ letters_of after.now run.now }
{
    let mut word = ArrayVec::new();
    for k in 0..run.len {
        word.push(capital_shown(after.at(along(run.start, run.dir, k))));
    }
    word
}

/// The words of runs, in their order.
fn words_of(after: &Board, runs: &[Run]) -> Words
    requires within { All IsWithin runs.now }
    requires few { length runs.now ≤ 8 }
    ensures { items_of result.items ≡ map (letters_of after.now) runs.now }
{
    let mut words = ArrayVec::new();
    for run in runs {
        words.push(letters_of(after, run));
    }
    words
}

/// The words that a legal play forms: that of its direction first, if it has two letters, and then the cross words in
/// the order of the new tiles.
#[tactic(auto, unfolding(crate::specs::Words::words_formed))]
pub fn words(board: &Board, play: &Play) -> Words
    requires { IsLegal board.now play.now.tiles.items }
    ensures { items_of result.items ≡ words_formed play.now.dir board.now play.now.tiles.items }
{
    let (after, runs) = formed(board, play);
    words_of(&after, &runs)
}
