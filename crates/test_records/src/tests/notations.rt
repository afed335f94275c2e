//! How plays are written, and their order.
use super::plays::{AT, Text, WORD, after, judged, text_of};
use ref_board::Board;
use ref_play::{Notation, PlayFault, before, law_of_before, notation};
use std::alloc::Global;
use std::process::Abort;
use test_samples::PlayText;

/// Legal plays and their notation: the plays before each, its text as it is given, and its text as it is written.
const ROWS: [(&[Text], Text, Text); 6] = [
    (&[], "8E WOrD", "8E WOrD"),
    (&[WORD], "8D SWORDS", "8D S....S"),
    (&[WORD, AT], "9F E..", "9F E.."),
    (&[WORD, AT], "F8 .E", "9F E.."),
    (&[WORD], "E8 .E", "E8 .E"),
    (&[WORD], "9E E", "E8 .E"),
];

pub fn assert_written(rt: &impl Abort, notation: &Notation, written: Text) {
    let PlayText { at, dir, symbols } = text_of(rt, written);
    assert_eq!(rt; notation.at, at, "{written}");
    assert!(rt; notation.dir == dir, "{written}");
    assert_eq!(rt; notation.word.len(), symbols.len(), "{written}");
    for (symbol, byte) in notation.word.iter().zip(symbols) {
        assert_eq!(rt; symbol.byte(), *byte, "{written}");
    }
}

#[test]
fn written_plays(rt: HostRuntime) {
    for (before, given, written) in &ROWS {
        let board = after(&rt, rt.alloc(), before);
        match judged(&rt, rt.alloc(), &board, *given) {
            Ok(play) => assert_written(&rt, &notation(&board, &play), *written),
            Err(fault) => assert!(rt; false, "{fault:?}"),
        }
    }
}

/// First plays of a game, each before those after it: across before down, then row by row, then capitals before small
/// letters.
const ORDERED: [Text; 5] = ["8G AT", "8G At", "8H AT", "H7 AT", "H8 AT"];

/// Whether the first play comes before the second, if both are legal.
fn comes_first(
    rt: &impl Abort,
    alloc: Global,
    board: &Board,
    first: Text,
    second: Text,
) -> Result<bool, PlayFault> {
    let first = judged(rt, alloc, board, first)?;
    let second = judged(rt, alloc, board, second)?;
    Ok(before(board, &first, &second))
}

#[test]
fn ordered_plays(rt: HostRuntime) {
    let board = Board::empty();
    for (i, first) in ORDERED.iter().enumerate() {
        for (j, second) in ORDERED.iter().enumerate() {
            let first_comes = comes_first(&rt, rt.alloc(), &board, *first, *second);
            assert_eq!(rt; first_comes, Ok(i < j), "{first:?} {second:?}");
        }
    }
    law_of_before();
}
