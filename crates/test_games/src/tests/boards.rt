//! Boards of records, as texts.
use super::pieces::reported_of;
use engine_stages::Verdict;
use std::alloc::Global;
use std::process::Abort;
use test_calls::{Call, Inputs, NO_INPUTS};
use test_samples::{ROWS_1_TO_7, ROWS_9_TO_11, ROWS_12_TO_15, has_parts};

/// The board of a record: the verdict and what was written.
fn shown(rt: &impl Abort, alloc: Global, game: &[u8], before: Option<u32>) -> (Verdict, Vec<u8>) {
    let inputs = Inputs { game, ..NO_INPUTS };
    reported_of(rt, alloc, Call::Board(before), &inputs)
}

/// The whole text of a small record.
const WORD: [&str; 6] = [
    "board before line 2\n",
    ROWS_1_TO_7,
    " 8 = . . ' W O r D . . . ' . . =\n",
    ROWS_9_TO_11,
    ROWS_12_TO_15,
    "\
A 14
B 0
rack AEINRST
tiles not on the board: 96
  A 9  B 2  C 2  D 3  E 12  F 2  G 3  H 2  I 9
  J 1  K 1  L 4  M 2  N 6  O 7  P 2  Q 1  R 6
  S 4  T 6  U 4  V 2  W 1  X 1  Y 2  Z 1  ? 1
",
];

#[test]
fn whole_board(rt: HostRuntime) {
    let game = b">A: DOW? 8E WOrD +14 14\n>B: NRSTAEI - +0 0\n";
    let (verdict, text) = shown(&rt, rt.alloc(), game, Some(2));
    assert_eq!(rt; verdict, Verdict::Done);
    assert!(rt; has_parts(text.as_slice(), &WORD));
}

#[test]
fn no_boards(rt: HostRuntime) {
    let rows: [(&str, Option<u32>, Verdict, &str); 4] = [
        (
            "",
            Some(0),
            Verdict::BadLine,
            "bad line: no event is on it or after it\n",
        ),
        (
            ">A: 8E WORD +1 1\n",
            Some(2),
            Verdict::BadLine,
            "bad line: no event is on it or after it\n",
        ),
        (
            ">A: 8E WORD +x 1\n",
            Some(9),
            Verdict::BadRecord,
            "bad record line 1: Number\n",
        ),
        (
            ">A: 8P WORD +1 1\n",
            None,
            Verdict::BadRecord,
            "bad record line 1: Position\n",
        ),
    ];
    for (game, before, wanted, want) in rows {
        let (verdict, text) = shown(&rt, rt.alloc(), game.as_bytes(), before);
        assert_eq!(rt; verdict, wanted, "{want}");
        assert_eq!(rt; text.as_slice(), want.as_bytes(), "{want}");
    }
}
