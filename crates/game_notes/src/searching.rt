//! The best plays by a lexicon, for any number of them.
ghost use Rattle.std.specs.Prelude.{◌≡◌, ℕ, List, Some};
ghost use Rattle.lex_list.specs.RotatedPaths.{StandsFor};
ghost use Rattle.lex_check.specs.Pairs.{list_in};
ghost use Rattle.gen_cross.specs.Values.{IsRight};
ghost use Rattle.gen_moves.specs.Laws.{AreLong};
ghost use Rattle.game_notes.specs.Keeping.{AreFirstPlays};

use gen_cross::Cross;
use gen_moves::generate;
use gen_sinks::{Sink, Top};
use lex_check::Checked;
use lex_file::PathLex;
use lex_list::WordList;
use ref_board::Board;
use ref_tiles::{Counts, Rules};

/// The best N plays by a list of words and a lexicon that stands for it.
fn first_plays<L: PathLex, const N: usize>(
    rules: &Rules,
    list: &WordList,
    lex: &L,
    board: &mut Board,
    rack: &Counts,
    cross: &Cross,
) -> Top<N>
    ghost words: { List (List ℕ) }
    requires list { list.now ≡ words }
    requires long { AreLong words }
    requires lexicon { StandsFor (L.language lex.now) words }
    requires cross { IsRight rules.now words board.old cross.now }
    ensures made_for { ⟦<Top<N> as Sink>⟧.made_for result ≡ Some board.old }
    ensures first { AreFirstPlays N rules.now words board.old rack.now (⟦<Top<N> as Sink>⟧.items result) }
    ensures board { board.new ≡ board.old }
{
    board.law_of_squares();
    let mut top = Top::new(board);
    if generate(rules, board, cross, rack, lex, &mut top).is_err() {
        unreachable!()
    }
    top
}

/// The same; the words of a list have two letters or more.
#[tactic(auto, using(crate::proofs::FirstPlays::long_words))]
fn first_by<L: PathLex, const N: usize>(
    rules: &Rules,
    list: &WordList,
    lex: &L,
    board: &mut Board,
    rack: &Counts,
    cross: &Cross,
) -> Top<N>
    requires lexicon { StandsFor (L.language lex.now) list.now }
    requires cross { IsRight rules.now list.now board.old cross.now }
    ensures made_for { ⟦<Top<N> as Sink>⟧.made_for result ≡ Some board.old }
    ensures first { AreFirstPlays N rules.now list.now board.old rack.now (⟦<Top<N> as Sink>⟧.items result) }
    ensures board { board.new ≡ board.old }
{
    // The prover learns from the call of `len` what a word list is.
    let _words = list.len();
    first_plays(rules, list, lex, board, rack, cross)
}

/// The best N plays that a rack allows on a board by the words of a pair, best first: by score, and plays of equal score by
/// their notations. The cross-sets are those of the board, which is not changed. It allocates nothing.
#[tactic(auto, using(crate::proofs::FirstPlays::file_stands))]
pub fn best_plays<const N: usize>(
    rules: &Rules,
    pair: &Checked<'_>,
    board: &mut Board,
    rack: &Counts,
    cross: &Cross,
) -> Top<N>
    requires { IsRight rules.now (list_in pair.now) board.old cross.now }
    ensures made_for { ⟦<Top<N> as Sink>⟧.made_for result ≡ Some board.old }
    ensures first { AreFirstPlays N rules.now (list_in pair.now) board.old rack.now (⟦<Top<N> as Sink>⟧.items result) }
    ensures board { board.new ≡ board.old }
{
    first_by(rules, pair.list(), pair.file(), board, rack, cross)
}
