//! Records that are tidied.
use super::pieces::reported_of;
use engine_stages::Verdict;
use test_calls::{Call, Inputs, NO_INPUTS};

/// Records, and what is answered and written for them: their normal form, or their first fault.
const ROWS: [(&str, Verdict, &str); 7] = [
    (
        "\u{feff}#player1 A  Ann Lee\r\n#note x\n>A:\tDORWAAE  8e WORD 16 16\r\n",
        Verdict::Done,
        "#player1 A Ann Lee\n>A: AADEORW 8E WORD +16 16\n",
    ),
    ("", Verdict::Done, ""),
    (
        "\n> Al :?Q? 08h W(o)rD -0 -7",
        Verdict::Done,
        "#player1 Al\n>Al: Q?? 8H WorD +0 -7\n",
    ),
    (
        ">A: - 0 +0\n>B: -7 0 0\n>A: -? +0 5\n>A: (time) -5 0\n>B: (A?) 4 4",
        Verdict::Done,
        "#player1 A\n#player2 B\n>A: - +0 0\n>B: -7 +0 0\n>A: -? +0 5\n>A: (time) -5 0\n>B: (A?) +4 4\n",
    ),
    (
        "#player1 A\n#player2 A\n",
        Verdict::BadRecord,
        "bad record line 2: ThirdPlayer\n",
    ),
    (
        ">A: -8 +0 0\n",
        Verdict::BadRecord,
        "bad record line 1: Code\n",
    ),
    (
        ">A: - +1234567 0\n",
        Verdict::BadRecord,
        "bad record line 1: Number\n",
    ),
];

#[test]
fn tidied_records(rt: HostRuntime) {
    for (game, wanted, want) in ROWS {
        let inputs = Inputs {
            game: game.as_bytes(),
            ..NO_INPUTS
        };
        let (verdict, text) = reported_of(&rt, rt.alloc(), Call::Tidy, &inputs);
        assert_eq!(rt; verdict, wanted, "{want}");
        assert_eq!(rt; text.as_slice(), want.as_bytes(), "{want}");
    }
}
