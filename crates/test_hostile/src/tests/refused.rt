//! Memory that is refused: each request in turn, by `oracle/checks/refuse_memory.py`, until a run meets no refusal. Each test is for one
//! call, and takes little memory otherwise. Without a refusal the answer is the row's.
use super::jobs::{
    BEST_PLAYS, BUILT, CHECKED, CONVERTED, CONVERTED_BACK, Job, NO_DEAL, ONE_PLAY, PLAYS_BEFORE,
    RULED, RULED_BOARD, RULED_NO_DEAL, RULED_PLAYS, RULED_PLAYS_BEFORE, SETTLED, SHOWN, STALE,
    TIDIED, UNSETTLED, WITHDRAWN, WORD, attempt, working,
};
use engine_stages::{RunFault, pair_file};
use explain_answers::explain;
use explain_lines::push_explanation;
use game_case::open_case;
use game_deal::{DealFault, bounds, complete};
use game_turns::play_through;
use gcg_read::{Record, read};
use gcg_write::{NoMemory, event_text, write};
use lex_build::{BuildFault, convert};
use lex_check::{Mismatch, SortedPaths, pair};
use lex_file::{Format, LexFile};
use lex_list::WordList;
use ref_tiles::{Kind, english_rules};
use std::alloc::Global;
use std::process::Abort;
use test_calls::{Feed, NEVER};
use test_samples::{AT, AT_BY_NODES, ROWS_1_TO_7, ROWS_9_TO_11, ROWS_12_TO_15, has_parts};

/// A job is done, or refused with nothing written.
fn assert_spared(rt: &impl Abort, alloc: Global, job: &Job<'_>) {
    let outcome = attempt(alloc, job, &working(8192));
    if outcome.answer == Err(RunFault::NoMemory) {
        assert!(rt; outcome.out.as_slice().is_empty());
    } else {
        assert_eq!(rt; outcome.answer, Ok(job.verdict));
        assert_eq!(rt; outcome.out.as_slice(), job.wrote);
    }
}

#[test]
fn run_of_one_play(rt: HostRuntime) {
    assert_spared(&rt, rt.alloc(), &ONE_PLAY);
}

#[test]
fn run_of_a_play_taken_back(rt: HostRuntime) {
    assert_spared(&rt, rt.alloc(), &WITHDRAWN);
}

#[test]
fn run_of_a_stale_game(rt: HostRuntime) {
    assert_spared(&rt, rt.alloc(), &STALE);
}

#[test]
fn run_of_an_unsettled_game(rt: HostRuntime) {
    assert_spared(&rt, rt.alloc(), &UNSETTLED);
}

#[test]
fn run_settled_with_a_deal(rt: HostRuntime) {
    assert_spared(&rt, rt.alloc(), &SETTLED);
}

#[test]
fn run_settled_without(rt: HostRuntime) {
    assert_spared(&rt, rt.alloc(), &NO_DEAL);
}

#[test]
fn run_settled_ruled(rt: HostRuntime) {
    assert_spared(&rt, rt.alloc(), &RULED_NO_DEAL);
}

#[test]
fn run_top(rt: HostRuntime) {
    assert_spared(&rt, rt.alloc(), &BEST_PLAYS);
}

#[test]
fn run_top_before(rt: HostRuntime) {
    assert_spared(&rt, rt.alloc(), &PLAYS_BEFORE);
}

#[test]
fn run_top_before_ruled(rt: HostRuntime) {
    assert_spared(&rt, rt.alloc(), &RULED_PLAYS_BEFORE);
}

#[test]
fn run_ruled(rt: HostRuntime) {
    assert_spared(&rt, rt.alloc(), &RULED);
}

#[test]
fn run_top_ruled(rt: HostRuntime) {
    assert_spared(&rt, rt.alloc(), &RULED_PLAYS);
}

#[test]
fn run_build(rt: HostRuntime) {
    assert_spared(&rt, rt.alloc(), &BUILT);
}

#[test]
fn run_check(rt: HostRuntime) {
    assert_spared(&rt, rt.alloc(), &CHECKED);
}

#[test]
fn run_convert(rt: HostRuntime) {
    assert_spared(&rt, rt.alloc(), &CONVERTED);
}

#[test]
fn run_convert_back(rt: HostRuntime) {
    assert_spared(&rt, rt.alloc(), &CONVERTED_BACK);
}

#[test]
fn run_tidy(rt: HostRuntime) {
    assert_spared(&rt, rt.alloc(), &TIDIED);
}

#[test]
fn run_board(rt: HostRuntime) {
    assert_spared(&rt, rt.alloc(), &SHOWN);
}

#[test]
fn run_board_ruled(rt: HostRuntime) {
    assert_spared(&rt, rt.alloc(), &RULED_BOARD);
}

/// What is written after a byte is this text, or nothing if memory is refused.
fn assert_after(rt: &impl Abort, out: &[u8], wrote: Result<(), NoMemory>, text: &[u8]) {
    let (front, following) = out.split_first().expect(rt, "a byte");
    let expected = if wrote.is_ok() { text } else { b"" };
    assert_eq!(rt; (*front, following), (b'x', expected));
}

/// What is written of a record is its normal form.
fn assert_normal(rt: &impl Abort, alloc: Global, game: &Record, normal: &[u8]) {
    if let Ok(mut out) = Vec::from_slice(alloc, b"x") {
        let wrote = write(game, &mut out);
        assert_after(rt, &out, wrote, normal);
    }
}

#[test]
fn write_of_a_record(rt: HostRuntime) {
    if let Ok(game) = read(rt.alloc(), TIDIED.game) {
        assert_normal(&rt, rt.alloc(), &game, TIDIED.wrote);
    }
}

/// What is written of the one event of a record is its text.
fn assert_event(rt: &impl Abort, alloc: Global, game: &Record, text: &[u8]) {
    assert_eq!(rt; game.events.len(), 1);
    if let Ok(mut out) = Vec::from_slice(alloc, b"x") {
        let wrote = event_text(game, 0, &mut out);
        assert_after(rt, &out, wrote, text);
    }
}

#[test]
fn event_text_of_a_play(rt: HostRuntime) {
    if let Ok(game) = read(rt.alloc(), ONE_PLAY.game) {
        assert_event(&rt, rt.alloc(), &game, b"8E WORD +16 16");
    }
}

#[test]
fn sorted_paths(rt: HostRuntime) {
    let Ok(list) = WordList::read(rt.alloc(), b"AT") else {
        return;
    };
    if let Ok(paths) = SortedPaths::new(rt.alloc(), &list) {
        assert_eq!(rt; paths.len(), 2);
    }
}

#[test]
fn pair_of_a_word(rt: HostRuntime) {
    let Ok(list) = WordList::read(rt.alloc(), b"WORD") else {
        return;
    };
    let Ok(file) = LexFile::open(&WORD) else {
        panic!(rt; "no file");
    };
    match pair(rt.alloc(), &list, file) {
        Ok(pair) => assert_eq!(rt; pair.list().len(), 1),
        Err(Mismatch::NoMemory) => (),
        Err(_) => panic!(rt; "they agree"),
    }
}

#[test]
fn convert_of_a_word(rt: HostRuntime) {
    for (bytes, format, want) in [
        (AT.as_slice(), Format::Gad2, AT_BY_NODES.as_slice()),
        (AT_BY_NODES.as_slice(), Format::Gad1, AT.as_slice()),
    ] {
        let file = LexFile::open(bytes).expect(&rt, "a file");
        match convert(rt.alloc(), &file, format) {
            Ok(converted) => assert_eq!(rt; converted.as_slice(), want),
            Err(fault) => assert_eq!(rt; fault, BuildFault::NoMemory),
        }
    }
}

/// The record and the list of a deal; none if memory is refused.
fn dealt(alloc: Global, game: &[u8]) -> Option<(Record, WordList)> {
    let record = read(alloc, game).ok()?;
    let list = WordList::read(alloc, b"AT").ok()?;
    Some((record, list))
}

/// The fault of the deals of a record.
fn exceeded(rt: &impl Abort, alloc: Global, record: &Record, list: &WordList) -> Option<DealFault> {
    let rules = english_rules();
    let passed = play_through(&rules, record, list).expect(rt, "a record that passed");
    bounds(alloc, &passed).err()
}

/// A third blank is shown.
#[test]
fn bounds_exceeded(rt: HostRuntime) {
    let Some((record, list)) = dealt(rt.alloc(), b">A: ?? - +0 0\n>B: ? - +0 0\n") else {
        return;
    };
    let short = DealFault::TilesShort {
        line: 2,
        kind: Kind::Blank,
    };
    let fault = exceeded(&rt, rt.alloc(), &record, &list).expect(&rt, "a fault");
    assert!(rt; fault == short || fault == DealFault::NoMemory);
}

/// Asserts that a deal of three steps is found for a record that exceeds no bound, or memory is refused.
fn assert_deal(rt: &impl Abort, alloc: Global, record: &Record, list: &WordList) {
    let rules = english_rules();
    let passed = play_through(&rules, record, list).expect(rt, "a record that passed");
    match bounds(alloc, &passed) {
        Ok(needs) => {
            if let Ok(deal) = complete(alloc, &needs) {
                assert_eq!(rt; deal.expect(rt, "a deal").as_slice().len(), 3);
            }
        }
        Err(fault) => assert_eq!(rt; fault, DealFault::NoMemory),
    }
}

/// An exchange of unknown tiles.
#[test]
fn complete_with_an_exchange(rt: HostRuntime) {
    let game = b">A: AEI -5 +0 0\n>B: QU - +0 0\n>A: SX - +0 0\n";
    if let Some((record, list)) = dealt(rt.alloc(), game) {
        assert_deal(&rt, rt.alloc(), &record, &list);
    }
}

/// What explains a wrong score.
const WRONG_SCORE: [&str; 5] = [
    "\
illegal line 1: WrongScore 16
line 1: >A: DORWAAE 8E WORD +18 18
The play scores 16, but 18 is written.
WORD
  8E W 4
  8F O 1
  8G R 1
  8H D 2, double word
  sum 8 x 2 = 16
score of the play: 16
board before line 1, the squares of the play in brackets
",
    ROWS_1_TO_7,
    " 8 = . . '[. . . -]. . . ' . . =\n",
    ROWS_9_TO_11,
    ROWS_12_TO_15,
];

/// What explains racks.
const SHORT_RACKS: [&str; 5] = [
    "\
illegal line 2: TilesShort ?
line 2: >B: ? - +0 0
The game has 2 of the tile ?, but by what the lines up to this one show there would have to be 3: 0 on the board, 2 on A's rack and 1 on B's.
  line 1 shows 2 on A's rack
  line 2 shows 1 on B's rack
board before line 2
",
    ROWS_1_TO_7,
    " 8 = . . ' . . . - . . . ' . . =\n",
    ROWS_9_TO_11,
    ROWS_12_TO_15,
];

/// What explains a text that is not a record.
const THIRD_PLAYER: [&str; 1] = [
    "\
bad record line 3: ThirdPlayer
line 3: >C: - +0 0
C is a third nickname: the players are A and B.
",
];

/// Asserts what explains a record by the list WORD, or that memory is refused.
fn assert_explained(rt: &impl Abort, alloc: Global, game: &[u8], want: &[&str]) {
    if let Some(text) = explained(alloc, game) {
        assert!(rt; has_parts(text.as_slice(), want));
    }
}

/// What explains a record by the list WORD; none if memory is refused.
fn explained(alloc: Global, game: &[u8]) -> Option<Vec<u8>> {
    let rules = english_rules();
    let list = WordList::read(alloc, b"WORD").ok()?;
    let Ok(Ok(pair)) = pair_file(alloc, &list, &WORD) else {
        return None;
    };
    let mut game = Feed::new(game, 8192, NEVER);
    let Ok(case) = open_case(alloc, &rules, &pair, &mut game) else {
        return None;
    };
    let explanation = match (&case.read, &case.walk) {
        (Ok(entry), Some(walk)) => explain(alloc, &rules, pair.list(), entry, walk, None).ok()?,
        _ => None,
    };
    let mut text = Vec::new(alloc);
    push_explanation(alloc, &mut text, &case, None, explanation.as_ref()).ok()?;
    Some(text)
}

#[test]
fn explain_of_a_wrong_score(rt: HostRuntime) {
    assert_explained(
        &rt,
        rt.alloc(),
        b">A: DORWAAE 8E WORD +18 18\n",
        &WRONG_SCORE,
    );
}

#[test]
fn explain_of_racks(rt: HostRuntime) {
    assert_explained(
        &rt,
        rt.alloc(),
        b">A: ?? - +0 0\n>B: ? - +0 0\n",
        &SHORT_RACKS,
    );
}

#[test]
fn explain_of_no_record(rt: HostRuntime) {
    assert_explained(
        &rt,
        rt.alloc(),
        b">A: - +0 0\n>B: - +0 0\n>C: - +0 0\n",
        &THIRD_PLAYER,
    );
}
