//! Memory that is refused to a sink that keeps all plays (see `refused`).
ghost use Rattle.std.specs.Prelude.{◌≡◌, ℕ, List};
ghost use Rattle.lex_list.specs.RotatedPaths.{StandsFor};
ghost use Rattle.gen_moves.specs.Laws.{AreLong};

use gen_cross::Cross;
use gen_moves::generate;
use gen_sinks::{All, NoMemory};
use lex_check::SortedPaths;
use lex_file::PathLex;
use lex_list::WordList;
use ref_board::Board;
use ref_play::Play;
use ref_tiles::{Counts, Rules, english_rules};
use test_samples::tiles_of;

/// Gives a sink all plays by a list of words and a lexicon that stands for it.
fn offer<L: PathLex>(
    rules: &Rules,
    list: &WordList,
    lex: &L,
    board: &mut Board,
    rack: &Counts,
    sink: &mut All,
) -> Result<(), NoMemory>
    ghost words: { List (List ℕ) }
    requires list { list.now ≡ words }
    requires long { AreLong words }
    requires lexicon { StandsFor (L.language lex.now) words }
{
    let cross = Cross::scratch(rules, board, lex);
    generate(rules, board, &cross, rack, lex, sink)
}

/// The same; the words of a list have two letters or more.
#[tactic(auto, using(game_notes::proofs::FirstPlays::long_words))]
fn offer_by<L: PathLex>(
    rules: &Rules,
    list: &WordList,
    lex: &L,
    board: &mut Board,
    rack: &Counts,
    sink: &mut All,
) -> Result<(), NoMemory>
    requires { StandsFor (L.language lex.now) list.now }
{
    // The prover learns from the call of `len` what a word list is.
    let _words = list.len();
    offer(rules, list, lex, board, rack, sink)
}

fn is_same(one: &(Play, i32), other: &(Play, i32)) -> bool {
    one.0.dir == other.0.dir
        && one.0.tiles.as_slice() == other.0.tiles.as_slice()
        && one.1 == other.1
}

/// After a refusal the sink has a prefix of the plays, and the board is as it was. If only one request is refused, the second call
/// meets no refusal.
#[test]
fn generate_all(rt: HostRuntime) {
    let Ok(list) = WordList::read(rt.alloc(), b"AT") else {
        return;
    };
    let Ok(paths) = SortedPaths::new(rt.alloc(), &list) else {
        return;
    };
    let rules = english_rules();
    let rack = tiles_of(b"AT").expect(&rt, "tiles");
    let mut board = Board::empty();
    let mut some = All::new(rt.alloc());
    let first = offer_by(&rules, &list, &paths, &mut board, &rack, &mut some);
    assert!(rt; board.is_empty());
    let mut all = All::new(rt.alloc());
    let second = offer_by(&rules, &list, &paths, &mut board, &rack, &mut all);
    assert!(rt; first.is_ok() || second.is_ok());
    let (few, many) = if second.is_ok() {
        (some.items(), all.items())
    } else {
        (all.items(), some.items())
    };
    assert_eq!(rt; many.len(), 4);
    assert!(rt; few.len() == 4 || first.is_err() || second.is_err());
    for (one, other) in few.iter().zip(many) {
        assert!(rt; is_same(one, other));
    }
}
