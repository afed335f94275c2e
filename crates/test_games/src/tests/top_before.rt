//! The best plays before a line of a record.
use super::games::reported_by;
use engine_stages::{GameFault, Verdict};
use game_turns::RuleFault;
use std::alloc::Global;
use std::process::Abort;
use test_calls::{Before, Call, GameRules};

/// A question about a record.
#[derive(Clone, Copy)]
struct Asked {
    game: &'static str,
    rack: Option<&'static str>,
    number: usize,
    before: Option<u32>,
}

/// A play of A, and a pass of B without a rack.
const PLAY: &str = ">A: AT 8H AT +4 4\n>B: - +0 0\n";

/// A play with a wrong score, and a pass of B with a rack.
const WRONG: &str = ">A: AT 8H AT +5 5\n>B: AT - +0 0\n";

/// A play that is taken back, and a pass of B with a rack.
const TAKEN_BACK: &str = ">A: TA 8H TA +4 4\n>A: -- -4 0\n>B: AT - +0 0\n";

/// All plays of AT on the empty board.
const FOUR: &str = "8G AT 4\n8H AT 4\nH7 AT 4\nH8 AT 4\n";

/// All plays of A, T and a blank on the empty board, by a list that has only AT.
const TWELVE: &str =
    "8G AT 4\n8H AT 4\nH7 AT 4\nH8 AT 4\n8G At 2\n8G aT 2\n8H At 2\n8H aT 2\nH7 At 2\nH7 aT 2\nH8 At 2\nH8 aT 2\n";

/// A question about a game by the word AT.
fn by_at(
    game: &'static str,
    rack: Option<&'static str>,
    number: usize,
    before: Option<u32>,
) -> Asked {
    Asked {
        game,
        rack,
        number,
        before,
    }
}

/// The verdict and what was written by the list AT.
fn topped(rt: &impl Abort, alloc: Global, asked: Asked) -> (Verdict, Vec<u8>) {
    let plays = Before {
        rack: asked.rack.map(|rack| rack.as_bytes()),
        number: asked.number,
        line: asked.before,
    };
    reported_by(
        rt,
        alloc,
        Call::TopBefore(plays),
        GameRules::English,
        b"AT",
        asked.game.as_bytes(),
    )
}

/// The rack is the one that is given, or that of the line; there are as many plays as requested, or as there are.
#[test]
fn plays_before_a_line(rt: HostRuntime) {
    let rows: [(Asked, &str); 9] = [
        (
            by_at("", Some("AT?"), 3, None),
            "8G AT 4\n8H AT 4\nH7 AT 4\n",
        ),
        (by_at("", Some("AT?"), 12, None), TWELVE),
        (by_at("", Some("AT?"), 100, None), TWELVE),
        (by_at(PLAY, None, 10, Some(1)), FOUR),
        (by_at(PLAY, Some("Q"), 10, Some(1)), "none\n"),
        // The event on the line is not judged.
        (by_at(WRONG, None, 10, Some(1)), FOUR),
        // The play that the line takes back is on the board.
        (
            by_at(TAKEN_BACK, Some("AT"), 10, Some(2)),
            "I8 .T 3\nH7 A. 2\n",
        ),
        (by_at(TAKEN_BACK, None, 10, Some(3)), FOUR),
        (by_at(TAKEN_BACK, None, 1, Some(3)), "8G AT 4\n"),
    ];
    for (asked, want) in rows {
        let (verdict, text) = topped(&rt, rt.alloc(), asked);
        assert_eq!(rt; verdict, Verdict::Done);
        assert_eq!(rt; text.as_slice(), want.as_bytes(), "{want}");
    }
}

/// A line without an event, a rack that is not one or not shown, and an event before the line that the rules do not allow.
#[test]
fn bad_questions(rt: HostRuntime) {
    let refused = Verdict::Illegal {
        line: 1,
        fault: GameFault::Rule(RuleFault::WrongScore(4)),
    };
    let rows: [(Asked, Verdict, &str); 6] = [
        (
            by_at(PLAY, None, 10, Some(3)),
            Verdict::BadLine,
            "bad line: no event is on it or after it\n",
        ),
        (
            by_at(PLAY, Some("A1"), 10, Some(3)),
            Verdict::BadRack,
            "bad rack\n",
        ),
        (
            by_at(PLAY, None, 10, Some(2)),
            Verdict::BadRack,
            "bad rack\n",
        ),
        (by_at(PLAY, None, 10, None), Verdict::BadRack, "bad rack\n"),
        (
            by_at(WRONG, None, 10, Some(2)),
            refused,
            "illegal line 1: WrongScore 4\n",
        ),
        (
            by_at(WRONG, Some("AT"), 10, None),
            refused,
            "illegal line 1: WrongScore 4\n",
        ),
    ];
    for (asked, want, reported) in rows {
        let (verdict, text) = topped(&rt, rt.alloc(), asked);
        assert_eq!(rt; verdict, want);
        assert_eq!(rt; text.as_slice(), reported.as_bytes(), "{reported}");
    }
}
