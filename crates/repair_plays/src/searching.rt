//! All plays that a rack allows on a board.
ghost use Rattle.std.specs.Prelude.{◌≡◌, ℕ, List, IfOk};
ghost use Rattle.lex_list.specs.RotatedPaths.{StandsFor};
ghost use Rattle.gen_cross.specs.Values.{IsRight};
ghost use Rattle.gen_moves.specs.Laws.{AreLong};
ghost use Rattle.repair_plays.specs.Legal.{AreGivenLegal};

use game_notes::cross_sets;
use gen_cross::Cross;
use gen_moves::generate;
use gen_sinks::{All, Sink};
use lex_check::Checked;
use lex_file::PathLex;
use lex_list::WordList;
use ref_board::Board;
use ref_tiles::{Counts, Rules};
use std::alloc::{AllocError, Global};

/// All plays by some words and a lexicon that stands for them.
fn plays_by_words<L: PathLex>(
    alloc: Global,
    rules: &Rules,
    list: &WordList,
    lex: &L,
    board: &mut Board,
    rack: &Counts,
    cross: &Cross,
) -> Result<All, AllocError>
    ghost words: { List (List ℕ) }
    requires list { list.now ≡ words }
    requires long { AreLong words }
    requires lexicon { StandsFor (L.language lex.now) words }
    requires cross { IsRight rules.now words board.old cross.now }
    ensures { IfOk result (λ all. AreGivenLegal board.old (⟦<All as Sink>⟧.items all)) }
{
    let mut all = All::new(alloc);
    generate(rules, board, cross, rack, lex, &mut all)?;
    Ok(all)
}

/// The same; the words of a list have two letters or more.
#[tactic(auto, using(game_notes::proofs::FirstPlays::long_words))]
fn plays_by_list<L: PathLex>(
    alloc: Global,
    rules: &Rules,
    list: &WordList,
    lex: &L,
    board: &mut Board,
    rack: &Counts,
    cross: &Cross,
) -> Result<All, AllocError>
    requires lexicon { StandsFor (L.language lex.now) list.now }
    requires cross { IsRight rules.now list.now board.old cross.now }
    ensures { IfOk result (λ all. AreGivenLegal board.old (⟦<All as Sink>⟧.items all)) }
{
    // The prover learns from the call of `len` what a word list is.
    let _words = list.len();
    plays_by_words(alloc, rules, list, lex, board, rack, cross)
}

/// All plays that a rack allows on a board by the words of a pair, each once.
///
/// It fails only if memory runs out.
#[tactic(auto, using(game_notes::proofs::FirstPlays::file_stands))]
pub(crate) fn all_plays(
    alloc: Global,
    rules: &Rules,
    pair: &Checked<'_>,
    board: &Board,
    rack: &Counts,
) -> Result<All, AllocError>
    ensures { IfOk result (λ all. AreGivenLegal board.now (⟦<All as Sink>⟧.items all)) }
{
    let mut held = *board;
    let cross = cross_sets(rules, pair, board);
    plays_by_list(
        alloc,
        rules,
        pair.list(),
        pair.file(),
        &mut held,
        rack,
        &cross,
    )
}
