//! The best play of a rack.
use super::notations::assert_written;
use super::plays::{AT, Text, WORD, after};
use game_notes::{annotate, cross_sets};
use gcg_read::read_rack;
use lex_build::build;
use lex_check::pair;
use lex_file::LexFile;
use lex_list::WordList;
use ref_play::notation;
use ref_tiles::{Counts, Rules, english_rules};
use std::alloc::Global;
use std::process::Abort;

/// The best play that a rack allows: the words of the list, the plays before it, the rack, where `?` is a blank, and the
/// play as it is written, with its score in the English game; none if there is no play.
type Row = (
    &'static [u8],
    &'static [Text],
    &'static [u8],
    Option<(Text, i32)>,
);

/// The words that 8E WORD and 9G AT make, except AT.
const NO_AT: &[u8] = b"DT\nRA\nWORD";

const ROWS: [Row; 10] = [
    (b"AT", &[], b"ABCDEF?", Some(("8G At", 2))),
    (b"RETAINS", &[], b"AEINRST", Some(("8B RETAINS", 66))),
    (b"WORD", &[], b"DORWAAE", Some(("8E WORD", 16))),
    (b"QI", &[], b"AEOUUTT", None),
    (b"", &[], b"AEOUUTT", None),
    (b"AT\nDT\nRA\nWORD", &[WORD], b"AT", Some((AT, 9))),
    (NO_AT, &[WORD], b"AT", Some(("G8 .A", 3))),
    (NO_AT, &[WORD], b"T", Some(("H8 .T", 3))),
    (b"SWORDS\nWORD", &[WORD], b"?S", Some(("8D S....s", 10))),
    (
        b"SWORD\nSWORDS\nWORD",
        &[WORD],
        b"?S",
        Some(("8D S....", 10)),
    ),
];

/// The tiles of a rack.
pub fn tiles(rt: &impl Abort, rack: &[u8]) -> Counts {
    read_rack(rack).expect(rt, "a rack")
}

fn assert_best(rt: &impl Abort, alloc: Global, rules: &Rules, row: Row) {
    let (words, before, rack, expected) = row;
    let list = WordList::read(alloc, words).expect(rt, "a word list");
    let bytes = build(alloc, &list).expect(rt, "a lexicon");
    let file = LexFile::open(bytes.as_slice()).expect(rt, "a file");
    let pair = pair(alloc, &list, file).expect(rt, "a pair");
    let start = after(rt, alloc, before);
    let mut board = start;
    let cross = cross_sets(rules, &pair, &board);
    let best = annotate(rules, &pair, &mut board, &tiles(rt, rack), &cross);
    assert_eq!(rt; board, start);
    match (best, expected) {
        (Some((play, score)), Some((written, points))) => {
            assert_eq!(rt; score, points, "{:?}", written);
            assert_written(rt, &notation(&board, &play), written);
        }
        (None, None) => {}
        _ => assert!(rt; false, "{:?}", rack),
    }
}

#[test]
fn best_plays(rt: HostRuntime) {
    let rules = english_rules();
    for row in &ROWS {
        assert_best(&rt, rt.alloc(), &rules, *row);
    }
}
