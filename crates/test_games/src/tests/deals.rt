//! Deals: records that are right line by line, and whether some deal of the tile set yields their racks. For each record that is
//! judged, `games` asserts that it is not unsettled without an exchange.
use super::games::{Row, report_all, report_with, reported_by};
use super::turns::SHORT;
use engine_stages::{Earlier, GameFault, Verdict};
use test_calls::{Call, GameRules};

/// No player has shown more tiles than have come to the rack, and both together no more of a kind than the game has.
const BOUNDS: [Row; 3] = [
    Row {
        words: "WORD",
        game: ">A: ?? - +0 0\n>B: ? - +0 0\n",
        report: "illegal line 2: TilesShort ?\n",
    },
    Row {
        words: "AT",
        game: ">A: AEINRST 8H AT +4 4\n>B: - +0 0\n>A: AAABCDE - +0 4\n",
        report: "illegal line 3: RackTooBig\n",
    },
    Row {
        words: "WORD",
        game: ">A: QZ - +0 0\n>B: - +0 0\n>A: (time) -5 -5\n>A: AEINRST - +0 -5\n>B: Z - +0 0\n",
        report: "illegal line 4: RackTooBig\n",
    },
];

/// The Q cannot be drawn before it goes back, but no bound says so: a record with an exchange may stay unsettled.
const UNSETTLED: [Row; 1] = [Row {
    words: "WORD",
    game: ">A: Q -Q +0 0\n>B: - +0 0\n>A: Q - +0 0\n",
    report: "unsettled\n",
}];

#[test]
fn deals(rt: HostRuntime) {
    report_all(&rt, rt.alloc(), GameRules::English, &[&BOUNDS, &UNSETTLED]);
}

/// Records with events after the line up to which there is no deal, and this line. The Q goes back and cannot be drawn before
/// its next line; the other player has it too early; and six of seven tiles stayed.
const UNDEALT: [(&str, u32, &str); 3] = [
    (
        ">A: Q -Q +0 0\n>B: - +0 0\n>A: Q - +0 0\n>B: - +0 0\n>A: Q - +0 0\n",
        3,
        "illegal line 3: NoDeal\n",
    ),
    (
        ">A: Q -Q +0 0\n>B: - +0 0\n>A: - +0 0\n>B: Q - +0 0\n>A: - +0 0\n>B: Q - +0 0\n",
        4,
        "illegal line 4: NoDeal\n",
    ),
    (
        ">A: AEINRST -1 +0 0\n>B: - +0 0\n>A: BCDFGHJ - +0 0\n>B: - +0 0\n>A: - +0 0\n",
        3,
        "illegal line 3: NoDeal\n",
    ),
];

/// The line is the first up to which there is no deal: some racks fit the events before it.
#[test]
fn undealt(rt: HostRuntime) {
    let earlier = Earlier::Dealt;
    for (game, line, want) in UNDEALT {
        let (verdict, report) = reported_by(
            &rt,
            rt.alloc(),
            Call::Settle,
            GameRules::English,
            b"WORD",
            game.as_bytes(),
        );
        let fault = GameFault::NoDeal { earlier };
        assert_eq!(rt; verdict, Verdict::Illegal { line, fault });
        assert_eq!(rt; report.as_slice(), want.as_bytes(), "{}", game);
    }
}

/// With 14 tiles both racks are all of them.
pub const WHOLE_SETS: [Row; 3] = [
    Row {
        words: "RETAINS",
        game: ">A: AEINRST 8D RETAINS +66 66\n>A: (ADEORTT) +16 82\n",
        report: "illegal line 2: TilesShort T\n",
    },
    Row {
        words: "RETAINS",
        game: ">A: AEINRST - +0 0\n>B: ADEORTW - +0 0\n",
        report: "legal unfinished\n1 A - +0 0 best 8B RETAINS 66\n2 B - +0 0 best none\n",
    },
    Row {
        words: "RETAINS",
        game: ">A: AEINRST - +0 0\n>B: ADEORTT - +0 0\n",
        report: "illegal line 2: TilesShort T\n",
    },
];

#[test]
fn whole_sets(rt: HostRuntime) {
    report_with(&rt, rt.alloc(), SHORT, 7, &[&WHOLE_SETS]);
}
