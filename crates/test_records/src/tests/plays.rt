//! Plays from their texts: words, scores and faults.
ghost use Rattle.std.specs.Prelude.{IfOk};
ghost use Rattle.ref_play.specs.Legality.{IsLegal};

use ref_board::{Board, Square};
use ref_play::PlayFault::{
    Apart, Mismatch, MissesCentre, NoNewTile, NotWhole, OffBoard, TooManyTiles, TooShort,
};
use ref_play::{
    Play, PlayFault, Words, apply, from_text, judge, law_of_undoing, score, undo, words,
};
use ref_tiles::{Letter, Rules, Symbol, Tile, english_rules};
use std::alloc::Global;
use std::process::Abort;
use test_samples::{PlayText, play_text};

/// The text of a play: its first square, `8E` across and `E8` down, and its symbols.
pub type Text = &'static str;

/// 8E WORD, which leaves R over 9G and D over 9H.
pub const WORD: Text = "8E WORD";

/// 9G AT.
pub const AT: Text = "9G AT";

/// A legal play: the plays before it, its text, its score in the English game, and its words.
type Scored = (&'static [Text], Text, i32, &'static [&'static [u8]]);

const SCORED: [Scored; 14] = [
    (&[], WORD, 16, &[b"WORD"]),
    (&[], "8E WOrD", 14, &[b"WORD"]),
    (&[], "8B RETAINS", 66, &[b"RETAINS"]),
    (&[], "8D RETAINS", 66, &[b"RETAINS"]),
    (&[], "8D RETAIN", 14, &[b"RETAIN"]),
    (&[], "H7 At", 2, &[b"AT"]),
    (&[], "H8 AT", 4, &[b"AT"]),
    (&[WORD], AT, 9, &[b"AT", b"RA", b"DT"]),
    (&[WORD], "8E WorDs", 8, &[b"WORDS"]),
    (&[WORD], "8D S....S", 11, &[b"SWORDS"]),
    (&[WORD], "7E A", 5, &[b"AW"]),
    (&[WORD, AT], "9F E..", 5, &[b"EAT", b"OE"]),
    (&[WORD, AT], "9F EAT", 5, &[b"EAT", b"OE"]),
    (&[WORD, AT], "F8 .E", 5, &[b"OE", b"EAT"]),
];

/// Texts that are refused: the plays before each, the text, and its fault.
const REFUSED: [(&[Text], Text, PlayFault); 13] = [
    (&[], "8D WORD", MissesCentre),
    (&[], "8N ABC", OffBoard),
    (&[], "15O A", MissesCentre),
    (&[], "8H A", TooShort),
    (&[WORD], "8D QUA", Mismatch),
    (&[WORD], "8E WORD.", Mismatch),
    (&[WORD], "8E ....", NoNewTile),
    (&[WORD], "1A ABCDEFGH", TooManyTiles),
    (&[WORD], "8D S", NotWhole),
    (&[WORD], "8I S", NotWhole),
    (&[WORD], "1A AT", Apart),
    (&[WORD], "7I AT", Apart),
    (&[WORD], "O15 S", TooShort),
];

/// A play by its text.
pub fn text_of<'a>(rt: &impl Abort, text: &'a str) -> PlayText<'a> {
    match play_text(text) {
        Some(play) => play,
        None => panic!(rt; "{text} is no play"),
    }
}

/// The play that a text names on a board.
fn named(rt: &impl Abort, alloc: Global, board: &Board, text: Text) -> Result<Play, PlayFault> {
    let PlayText { at, dir, symbols } = text_of(rt, text);
    let mut word = Vec::new(alloc);
    for byte in symbols {
        let symbol = Symbol::of_byte(*byte).expect(rt, "a symbol");
        word.push(symbol).expect(rt, "memory");
    }
    from_text(board, at, dir, &word)
}

/// The play that a text names, if it is legal.
pub fn judged(rt: &impl Abort, alloc: Global, board: &Board, text: Text) -> Result<Play, PlayFault>
    ensures { IfOk result (λ play. IsLegal board.now play.tiles.items) }
{
    let play = named(rt, alloc, board, text)?;
    judge(board, &play)?;
    Ok(play)
}

/// The board after plays that are all legal.
pub fn after(rt: &impl Abort, alloc: Global, texts: &[Text]) -> Board {
    let mut board = Board::empty();
    for text in texts {
        match judged(rt, alloc, &board, *text) {
            Ok(play) => apply(&mut board, &play),
            Err(fault) => assert!(rt; false, "{fault:?}"),
        }
    }
    board
}

fn assert_words(rt: &impl Abort, words: &Words, expected: &[&[u8]]) {
    assert_eq!(rt; words.len(), expected.len());
    for (word, other) in words.iter().zip(expected) {
        assert_eq!(rt; word.as_slice(), *other);
    }
}

fn assert_scored(rt: &impl Abort, alloc: Global, rules: &Rules, row: Scored) {
    let (before, text, points, expected) = row;
    let board = after(rt, alloc, before);
    match judged(rt, alloc, &board, text) {
        Ok(play) => {
            assert_eq!(rt; score(rules, &board, &play), points, "{text}");
            let words = words(&board, &play);
            assert_words(rt, &words, expected);
        }
        Err(fault) => assert!(rt; false, "{fault:?}"),
    }
}

#[test]
fn scored_plays(rt: HostRuntime) {
    let rules = english_rules();
    for row in &SCORED {
        assert_scored(&rt, rt.alloc(), &rules, *row);
    }
}

#[test]
fn refused_plays(rt: HostRuntime) {
    for (before, text, fault) in &REFUSED {
        let board = after(&rt, rt.alloc(), before);
        let refused = judged(&rt, rt.alloc(), &board, *text).err();
        assert_eq!(rt; refused, Some(*fault), "{text}");
    }
}

/// The fault of a play that a text names after some plays, on the board after others.
fn fault_there(
    rt: &impl Abort,
    alloc: Global,
    before: &[Text],
    text: Text,
    there: &[Text],
) -> Option<PlayFault> {
    let board = after(rt, alloc, before);
    let play = named(rt, alloc, &board, text).expect(rt, "a play");
    let other = after(rt, alloc, there);
    judge(&other, &play).err()
}

#[test]
fn plays_on_another_board(rt: HostRuntime) {
    let overlap = fault_there(&rt, rt.alloc(), &[], WORD, &[WORD]);
    assert_eq!(rt; overlap, Some(Mismatch));
    let both_ends: Text = "8D S....S";
    let gap = fault_there(&rt, rt.alloc(), &[WORD], both_ends, &[]);
    assert_eq!(rt; gap, Some(NotWhole));
}

fn put(rt: &impl Abort, board: &mut Board, column: usize, tile: Tile) {
    let square = Square::new(7, column).expect(rt, "a square");
    assert!(rt; board.at(square).is_none());
    board.put(square, tile);
}

fn letter(rt: &impl Abort, byte: u8) -> Letter {
    Letter::counted_from(b'A', byte).expect(rt, "a letter")
}

#[test]
fn tiles_put_down(rt: HostRuntime) {
    let board = after(&rt, rt.alloc(), &["8E WOrD"]);
    let mut expected = Board::empty();
    put(&rt, &mut expected, 4, Tile::of_letter(letter(&rt, b'W')));
    put(&rt, &mut expected, 5, Tile::of_letter(letter(&rt, b'O')));
    put(&rt, &mut expected, 6, Tile::of_blank(letter(&rt, b'R')));
    put(&rt, &mut expected, 7, Tile::of_letter(letter(&rt, b'D')));
    assert!(rt; board == expected);
}

#[test]
fn tiles_taken_back(rt: HostRuntime) {
    let before = after(&rt, rt.alloc(), &[WORD]);
    let mut board = before;
    match judged(&rt, rt.alloc(), &board, AT) {
        Ok(play) => {
            apply(&mut board, &play);
            assert!(rt; board != before);
            let copy = play.copy();
            assert!(rt; copy.dir == play.dir);
            assert!(rt; copy.tiles.as_slice() == play.tiles.as_slice());
            undo(&mut board, &copy);
            assert!(rt; board == before);
        }
        Err(fault) => assert!(rt; false, "{fault:?}"),
    }
    law_of_undoing();
}
