//! The best plays on the board after a record.
use super::games::reported_by;
use super::pieces::reported_of;
use engine_stages::{GameFault, Verdict};
use game_turns::RuleFault;
use io_devices::FromWrite;
use std::alloc::Global;
use std::process::Abort;
use test_calls::{Call, GameRules, Inputs, NO_INPUTS, Reads, ask};

/// The greatest score comes first, and plays of equal score by their notations: at most ten, or `none`.
#[test]
fn best_plays(rt: HostRuntime) {
    let rows: [(&str, &str, &str, &str); 5] = [
        ("AT", "", "?A", "8G At 2\n8H At 2\nH7 At 2\nH8 At 2\n"),
        (
            "AT",
            "",
            "AT?",
            "8G AT 4\n8H AT 4\nH7 AT 4\nH8 AT 4\n8G At 2\n8G aT 2\n8H At 2\n8H aT 2\nH7 At 2\nH7 aT 2\n",
        ),
        (
            "WORD\nAT\nRA\nEAT\nOE\n",
            ">A: DORWAAE 8E WORD +16 16\n>B: AT 9G AT +9 9\n",
            "E",
            "9F E.. 5\n",
        ),
        ("", "", "A", "none\n"),
        (
            "AT",
            ">A: ?? - +0 0\n>B: ? - +0 0\n",
            "?A",
            "8G At 2\n8H At 2\nH7 At 2\nH8 At 2\n",
        ),
    ];
    for (words, game, rack, want) in rows {
        expect_topped(&rt, rt.alloc(), words, game, rack, Verdict::Done, want);
    }
}

/// The fault of a play that scores four points, if five are written.
const WRONG_SCORE: Verdict = Verdict::Illegal {
    line: 1,
    fault: GameFault::Rule(RuleFault::WrongScore(4)),
};

/// The words of a list, a record, and what is answered and written for them by the rack AT.
const INPUTS: [(&str, &str, Verdict, &str); 4] = [
    (
        "A",
        "",
        Verdict::BadList,
        "bad word list line 1: BadLength\n",
    ),
    (
        "AT",
        ">A: -8 +0 0\n",
        Verdict::BadRecord,
        "bad record line 1: Code\n",
    ),
    (
        "AT",
        ">A: 8H AT +5 5\n",
        WRONG_SCORE,
        "illegal line 1: WrongScore 4\n",
    ),
    (
        "AT",
        "",
        Verdict::Done,
        "8G AT 4\n8H AT 4\nH7 AT 4\nH8 AT 4\n",
    ),
];

/// Asserts what is answered and written for words, their lexicon, a record and a rack.
fn expect_topped(
    rt: &impl Abort,
    alloc: Global,
    words: &str,
    game: &str,
    rack: &str,
    want: Verdict,
    reported: &str,
) {
    let (verdict, text) = reported_by(
        rt,
        alloc,
        Call::Top(rack.as_bytes()),
        GameRules::English,
        words.as_bytes(),
        game.as_bytes(),
    );
    assert_eq!(rt; verdict, want);
    assert_eq!(rt; text.as_slice(), reported.as_bytes(), "{reported}");
}

/// The first bad input is reported, and a record that the rules do not allow.
#[test]
fn bad_inputs(rt: HostRuntime) {
    for (words, game, want, reported) in INPUTS {
        expect_topped(&rt, rt.alloc(), words, game, "AT", want, reported);
    }
    let inputs = Inputs {
        words: b"AT",
        ..NO_INPUTS
    };
    let (verdict, text) = reported_of(&rt, rt.alloc(), Call::Top(b"AT"), &inputs);
    assert_eq!(rt; verdict, Verdict::BadFile);
    assert_eq!(rt; text.as_slice(), b"bad lexicon: Short\n".as_slice());
}

/// Asserts that after bytes that are not a rack no input is read: what the inputs hold is still there.
pub fn assert_bad_rack(rt: &impl Abort, alloc: Global, rules: GameRules<'_>, rack: &str) {
    let inputs = Inputs {
        rules,
        words: b"AT",
        lexicon: b"no lexicon",
        game: b"> no record",
    };
    let mut out = FromWrite::new(Vec::new(alloc));
    let reads = Reads::working(usize::MAX);
    let asked = ask(alloc, Call::Top(rack.as_bytes()), &inputs, &reads, &mut out);
    assert_eq!(rt; asked.answer, Ok(Verdict::BadRack), "{rack}");
    assert_eq!(rt; out.into_inner().as_slice(), b"bad rack\n".as_slice());
    assert_eq!(rt; asked.text.rest, rules.text());
    assert_eq!(rt; asked.words.rest, inputs.words);
    assert_eq!(rt; asked.lexicon.rest, inputs.lexicon);
    assert_eq!(rt; asked.game.rest, inputs.game);
}

#[test]
fn bad_racks(rt: HostRuntime) {
    for rack in ["", "A1", "a", "AAAAAAAA"] {
        assert_bad_rack(&rt, rt.alloc(), GameRules::English, rack);
    }
}
