//! Inputs that are not a word list or not a record.
use super::games::{Row, report_all};
use test_calls::GameRules;

/// The first line that is not a word is reported, and no other input is read.
pub const BAD_LISTS: [Row; 3] = [
    Row {
        words: "AT\nA1",
        game: ">A B: 8E WORD +16 16\n",
        report: "bad word list line 2: BadLetter\n",
    },
    Row {
        words: "A",
        game: ">A: 8H A +0 0\n",
        report: "bad word list line 1: BadLength\n",
    },
    Row {
        words: "A-B",
        game: "",
        report: "bad word list line 1: BadLetter\n",
    },
];

/// The first faulty line of a record is reported.
pub const BAD_RECORDS: [Row; 6] = [
    Row {
        words: "WORD",
        game: ">A: 8E WORD +x 16\n",
        report: "bad record line 1: Number\n",
    },
    Row {
        words: "WORD",
        game: "#note\n>A B: 8E WORD +16 16\n",
        report: "bad record line 2: NoColon\n",
    },
    Row {
        words: "WORD",
        game: ">A: -8 +0 0\n",
        report: "bad record line 1: Code\n",
    },
    Row {
        words: "WORD",
        game: ">A: 8E W0RD +16 16\n",
        report: "bad record line 1: Word\n",
    },
    Row {
        words: "WORD",
        game: ">A: - +0 0\n>B: - +0 0\n>C: - +0 0\n",
        report: "bad record line 3: ThirdPlayer\n",
    },
    Row {
        words: "WORD",
        game: ">A: AAAAAAAA 8E WORD +16 16\n",
        report: "bad record line 1: Rack\n",
    },
];

#[test]
fn bad_inputs(rt: HostRuntime) {
    report_all(
        &rt,
        rt.alloc(),
        GameRules::English,
        &[&BAD_LISTS, &BAD_RECORDS],
    );
}
