//! The plays that the generator gives to each sink: the rows, and compared with those of a plain search.
ghost use Rattle.std.specs.Prelude.{◌≡◌, ℕ, List};
ghost use Rattle.lex_list.specs.RotatedPaths.{StandsFor};
ghost use Rattle.gen_moves.specs.Laws.{AreLong};

use super::boards::{Laid, Position, list_of, text_of};
use super::cases::{CASES, Case, GAME, LIST, NO_GAME, PLAYED, POSITIONS};
use super::least::{Last, StepsAlone};
use super::searching::{Reported, searched};
use game_notes::{annotate, cross_sets, top};
use gen_cross::Cross;
use gen_moves::{All, generate};
use lex_build::build;
use lex_check::{Checked, SortedPaths, pair};
use lex_file::{LexFile, PathLex};
use lex_list::WordList;
use ref_board::Board;
use ref_play::{Notation, Play, judge, notation};
use std::alloc::Global;
use std::process::Abort;
use test_samples::PlayText;

/// A play as it is written. It has to be legal, and to be given in the direction in which it is written.
fn written(rt: &impl Abort, board: &Board, play: &Play) -> Notation {
    assert!(rt; judge(board, play).is_ok(), "a legal play");
    let notation = notation(board, play);
    assert!(rt; notation.dir == play.dir, "{:?}", notation);
    notation
}

/// The plays that a sink has, as they are written.
fn reported(rt: &impl Abort, alloc: Global, board: &Board, items: &[(Play, i32)]) -> Vec<Reported> {
    let mut reported = Vec::new(alloc);
    for (play, score) in items {
        reported
            .push((written(rt, board, play), *score))
            .expect(rt, "memory");
    }
    reported
}

/// All plays by a list of words and a lexicon that stands for it. The board must not be changed, and the last play must be that of
/// a sink that has no other.
fn plays_of<L: PathLex>(
    rt: &impl Abort,
    alloc: Global,
    list: &WordList,
    lex: &L,
    position: &Position,
) -> Vec<Reported>
    ghost words: { List (List ℕ) }
    requires list { list.now ≡ words }
    requires long { AreLong words }
    requires lexicon { StandsFor (L.language lex.now) words }
{
    let Position { rules, board, rack } = position;
    let cross = Cross::scratch(rules, board, lex);
    let mut held = *board;
    let mut all = All::new(alloc);
    generate(rules, &mut held, &cross, rack, lex, &mut all).expect(rt, "memory");
    let mut last = Last::new();
    generate(rules, &mut held, &cross, rack, lex, &mut last).expect(rt, "memory");
    assert_eq!(rt; held, *board);
    let given = reported(rt, alloc, board, all.items());
    let last = reported(rt, alloc, board, last.items());
    assert_eq!(rt; last.last(), given.last());
    given
}

/// The same; the words of a list have two letters or more.
#[tactic(auto, using(game_notes::proofs::FirstPlays::long_words))]
fn plays_by<L: PathLex>(
    rt: &impl Abort,
    alloc: Global,
    list: &WordList,
    lex: &L,
    position: &Position,
) -> Vec<Reported>
    requires { StandsFor (L.language lex.now) list.now }
{
    // The prover learns from the call of `len` what a word list is.
    let _words = list.len();
    plays_of(rt, alloc, list, lex, position)
}

/// All plays over the paths of a list.
fn by_paths(rt: &impl Abort, alloc: Global, list: &WordList, position: &Position) -> Vec<Reported> {
    let paths = SortedPaths::new(alloc, list).expect(rt, "the paths");
    plays_by(rt, alloc, list, &paths, position)
}

/// All plays over the file of a pair.
#[tactic(auto, using(game_notes::proofs::FirstPlays::file_stands))]
fn by_file(
    rt: &impl Abort,
    alloc: Global,
    pair: &Checked<'_>,
    position: &Position,
) -> Vec<Reported> {
    plays_by(rt, alloc, pair.list(), pair.file(), position)
}

/// All plays by the root and the steps of the file of a pair only.
#[tactic(auto, using(game_notes::proofs::FirstPlays::file_stands))]
fn by_steps(
    rt: &impl Abort,
    alloc: Global,
    pair: &Checked<'_>,
    position: &Position,
) -> Vec<Reported> {
    let steps = StepsAlone { of: pair.file() };
    plays_by(rt, alloc, pair.list(), &steps, position)
}

/// A play as records write it, and its score.
type Written = (&'static str, i32);

/// The first plays of AT without a blank, on an empty board.
const AT_FIRST: [Written; 4] = [("8G AT", 4), ("8H AT", 4), ("H7 AT", 4), ("H8 AT", 4)];

/// The same with a blank for each letter.
const AT_BY_BLANK: [Written; 8] = [
    ("8G At", 2),
    ("8G aT", 2),
    ("8H At", 2),
    ("8H aT", 2),
    ("H7 At", 2),
    ("H7 aT", 2),
    ("H8 At", 2),
    ("H8 aT", 2),
];

/// One tile, once in each direction in which it makes a word.
const ONE_TILE: [Written; 2] = [("15N A.", 2), ("O14 A.", 2)];

/// The words of a list, the tiles on a board, a rack, and all plays, in two parts.
type Row = (
    &'static [u8],
    &'static [Laid],
    &'static [u8],
    [&'static [Written]; 2],
);

const ROWS: [Row; 3] = [
    (b"AT", &[], b"AT", [&AT_FIRST, &[]]),
    (b"AT", &[], b"AT?", [&AT_FIRST, &AT_BY_BLANK]),
    (b"AT", &["15O T"], b"A", [&ONE_TILE, &[]]),
];

fn is_written(rt: &impl Abort, reported: &Reported, play: &Written) -> bool {
    let PlayText { at, dir, symbols } = text_of(rt, play.0);
    reported.0.at == at
        && reported.0.dir == dir
        && reported.0.word.len() == symbols.len()
        && reported
            .0
            .word
            .iter()
            .zip(symbols)
            .all(|(symbol, byte)| symbol.byte() == *byte)
        && reported.1 == play.1
}

/// Asserts that the given plays are those of both parts, each once, and no others.
fn assert_written(rt: &impl Abort, given: &[Reported], plays: [&[Written]; 2]) {
    assert_eq!(rt; given.len(), count_of(plays));
    for play in plays[0].iter().chain(plays[1]) {
        let same = given.iter().any(|reported| is_written(rt, reported, play));
        assert!(rt; same, "{:?}", play);
    }
}

fn count_of(plays: [&[Written]; 2]) -> usize {
    plays[0].len().saturating_add(plays[1].len())
}

fn assert_row(rt: &impl Abort, alloc: Global, row: Row) {
    let (words, tiles, held, plays) = row;
    let given = assert_case(rt, alloc, (words, tiles, held, count_of(plays)));
    assert_written(rt, &given, plays);
    let list = list_of(rt, alloc, words);
    let given = by_paths(rt, alloc, &list, &Position::of(rt, tiles, held));
    assert_written(rt, &given, plays);
}

#[test]
fn rows(rt: HostRuntime) {
    for row in &ROWS {
        assert_row(&rt, rt.alloc(), *row);
    }
}

/// Asserts that these are the same plays, each once in both.
fn assert_same(rt: &impl Abort, given: &[Reported], plain: &[Reported]) {
    assert_eq!(rt; given.len(), plain.len());
    for play in plain {
        assert!(rt; given.contains(play), "{:?}", play);
    }
}

/// Whether a play scores more than another, or has the same score and is written before it.
fn ranks_before(play: &Reported, other: &Reported) -> bool {
    play.1 > other.1 || (play.1 == other.1 && play.0 < other.0)
}

/// Asserts that the given plays are the best `most`, best first.
fn assert_first(rt: &impl Abort, given: &[Reported], plain: &[Reported], most: usize) {
    assert_eq!(rt; given.len(), plain.len().min(most));
    for (place, play) in given.iter().enumerate() {
        assert!(rt; plain.contains(play), "{:?}", play);
        let better = plain.iter().filter(|other| ranks_before(other, play));
        assert_eq!(rt; better.count(), place, "{:?}", play);
    }
}

/// Asserts what the sinks of the best play and of the ten best have.
fn assert_best(
    rt: &impl Abort,
    alloc: Global,
    pair: &Checked<'_>,
    position: &Position,
    plain: &[Reported],
) {
    let Position { rules, board, rack } = position;
    let ten = top(rules, pair, board, rack);
    let given = reported(rt, alloc, board, ten.items());
    assert_first(rt, &given, plain, 10);
    let mut held = *board;
    let cross = cross_sets(rules, pair, board);
    let best = annotate(rules, pair, &mut held, rack, &cross);
    assert_eq!(rt; held, *board);
    let best = best.map(|(play, score)| (written(rt, board, &play), score));
    assert_first(rt, best.as_slice(), plain, 1);
}

/// Asserts that the plays by the file are those of a plain search, in the given number, and gives them.
fn assert_case(rt: &impl Abort, alloc: Global, case: Case<'_>) -> Vec<Reported> {
    let (words, tiles, held, plays) = case;
    let list = list_of(rt, alloc, words);
    let bytes = build(alloc, &list).expect(rt, "a lexicon");
    let file = LexFile::open(bytes.as_slice()).expect(rt, "a file");
    let pair = pair(alloc, &list, file).expect(rt, "a pair");
    let position = Position::of(rt, tiles, held);
    let plain = searched(rt, alloc, &list, &position);
    assert_eq!(rt; plain.len(), plays, "{:?} {:?}", words, held);
    let given = by_file(rt, alloc, &pair, &position);
    assert_same(rt, &given, &plain);
    let by_steps = by_steps(rt, alloc, &pair, &position);
    assert_same(rt, &by_steps, &plain);
    assert_best(rt, alloc, &pair, &position, &plain);
    given
}

#[test]
fn after_plays(rt: HostRuntime) {
    for case in &PLAYED {
        assert_case(&rt, rt.alloc(), *case);
    }
}

#[test]
fn beside_a_plain_search(rt: HostRuntime) {
    for case in CASES.iter().chain(&NO_GAME) {
        assert_case(&rt, rt.alloc(), *case);
    }
    for (lie, rack, plays) in &POSITIONS {
        let tiles = GAME.get(..*lie).expect(&rt, "tiles of the game");
        assert_case(&rt, rt.alloc(), (LIST, tiles, *rack, *plays));
    }
}
