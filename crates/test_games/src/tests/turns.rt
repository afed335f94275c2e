//! Turns: whose it is, exchanges, withdrawals, challenges, and how a game ends.
use super::games::{Row, report_all, report_with};
use test_calls::GameRules;

/// The tiles of the rules with 14 tiles.
pub const SHORT: &[u8] = b"AADEEINORRSTTW";

/// The same with three more A.
const SPARE: &[u8] = b"AAAAADEEINORRSTTW";

/// The players take turns, and a record without events is a game that nobody began.
const MOVERS: [Row; 4] = [
    Row {
        words: "",
        game: "",
        report: "legal unfinished\n",
    },
    Row {
        words: "RETAINS",
        game: ">A: AEINRST - +0 0\n",
        report: "legal unfinished\n1 A - +0 0 best 8B RETAINS 66\n",
    },
    Row {
        words: "WORD",
        game: ">A: DORWAAE 8E WORD +16 16\n>A: AT 9G AT +9 25\n",
        report: "illegal line 2: NotYourTurn\n",
    },
    Row {
        words: "WORD",
        game: ">A: DORWAAE 8E WORD +16 16\n>A: - +0 16\n",
        report: "illegal line 2: NotYourTurn\n",
    },
];

/// A play with a word that is not in the list may be withdrawn by the line directly after it.
const WITHDRAWALS: [Row; 5] = [
    Row {
        words: "WORD",
        game: ">A: -- +0 0\n",
        report: "illegal line 1: NothingToWithdraw\n",
    },
    Row {
        words: "WORD\nAT\nRA\n",
        game: ">A: DORWAAE 8E WORD +16 16\n>B: AT 9G AT +9 9\n>B: AT -- -9 0\n>A: AT 9G AT +9 25\n",
        report: "legal unfinished\n1 A 8E WORD +16 16 best 8E WORD 16\n2 B 9G AT +9 9 best -\n3 B -- -9 0\n4 A 9G AT +9 25 best - unlisted DT\n",
    },
    Row {
        words: "WORD\nAT\nRA\nDT\n",
        game: ">A: DORWAAE 8E WORD +16 16\n>B: AT 9G AT +9 9\n>B: AT -- -9 0\n>A: AT 9G AT +9 25\n",
        report: "illegal line 3: WithdrawnValid\n",
    },
    Row {
        words: "WORD\nAT\nRA\n",
        game: ">A: DORWAAE 8E WORD +16 16\n>B: AT 9G AT +9 9\n>B: ZZZZZZZ -- -9 0\n",
        report: "legal unfinished\n1 A 8E WORD +16 16 best 8E WORD 16\n2 B 9G AT +9 9 best -\n3 B -- -9 0\n",
    },
    Row {
        words: "WORD\nAT\nRA\n",
        game: ">A: DORWAAE 8E WORD +16 16\n>B: AT 9G AT +9 9\n>B: (time) -5 4\n>B: AT -- -9 -5\n",
        report: "illegal line 4: NothingToWithdraw\n",
    },
];

/// A bonus for a challenge that failed: five points for each of the words that are in the list and were named.
const CHALLENGES: [Row; 8] = [
    Row {
        words: "WORD",
        game: ">A: (challenge) +5 5\n",
        report: "illegal line 1: BadBonus\n",
    },
    Row {
        words: "WORD\nAT\nRA\n",
        game: ">A: DORWAAE 8E WORD +16 16\n>B: AT 9G AT +9 9\n>B: AT (challenge) +5 14\n",
        report: "legal unfinished\n1 A 8E WORD +16 16 best 8E WORD 16\n2 B 9G AT +9 9 best - unlisted DT\n3 B (challenge) +5 14\n",
    },
    Row {
        words: "WORD\nAT\nRA\n",
        game: ">A: DORWAAE 8E WORD +16 16\n>B: AT 9G AT +9 9\n>B: AT (challenge) +10 19\n",
        report: "legal unfinished\n1 A 8E WORD +16 16 best 8E WORD 16\n2 B 9G AT +9 9 best - unlisted DT\n3 B (challenge) +10 19\n",
    },
    Row {
        words: "WORD\nAT\nRA\n",
        game: ">A: DORWAAE 8E WORD +16 16\n>B: AT 9G AT +9 9\n>B: AT (challenge) +15 24\n",
        report: "illegal line 3: BadBonus\n",
    },
    Row {
        words: "WORD\nAT\nRA\nDT\n",
        game: ">A: DORWAAE 8E WORD +16 16\n>B: AT 9G AT +9 9\n>B: AT (challenge) +15 24\n",
        report: "legal unfinished\n1 A 8E WORD +16 16 best 8E WORD 16\n2 B 9G AT +9 9 best -\n3 B (challenge) +15 24\n",
    },
    Row {
        words: "WORD\nAT\nRA\nDT\n",
        game: ">A: DORWAAE 8E WORD +16 16\n>B: AT 9G AT +9 9\n>B: AT (challenge) +20 29\n",
        report: "illegal line 3: BadBonus\n",
    },
    Row {
        words: "WORD",
        game: ">A: DORWAAE 8E WORD +16 16\n>B: AT 9G AT +9 9\n>B: AT (challenge) +5 14\n",
        report: "illegal line 3: BonusOnPhony\n",
    },
    Row {
        words: "WORD\nAT\nRA\n",
        game: ">A: DORWAAE 8E WORD +16 16\n>B: AT 9G AT +9 9\n>B: (time) -5 4\n>B: (challenge) +5 9\n",
        report: "illegal line 4: BadBonus\n",
    },
];

/// An exchange by the English rules.
const EXCHANGES: [Row; 1] = [Row {
    words: "AT",
    game: ">A: AEI -5 +0 0\n>B: QU - +0 0\n>A: SX - +0 0\n",
    report: "legal unfinished\n1 A -5 +0 0 best -\n2 B - +0 0 best -\n3 A - +0 0 best -\n",
}];

/// An exchange needs seven tiles in the bag, and a play no more tiles than the rack has.
const LEAST_BAGS: [Row; 2] = [
    Row {
        words: "RETAINS",
        game: ">A: AEINRST -AE +0 0\n",
        report: "illegal line 1: ExchangeRefused\n",
    },
    Row {
        words: "RETAINS",
        game: ">A: 8H AT +4 4\n>B: - +0 0\n>A: 9H ABCDEF +0 4\n",
        report: "illegal line 3: TooManyUsed\n",
    },
];

/// An exchange of no more tiles than the bag has, if one tile in it is enough.
const SMALL_BAGS: [Row; 2] = [
    Row {
        words: "RETAINS",
        game: ">A: AEINRST -5 +0 0\n",
        report: "illegal line 1: ExchangeSize\n",
    },
    Row {
        words: "RETAINS",
        game: ">A: AEINRST -AEI +0 0\n",
        report: "legal unfinished\n1 A -AEI +0 0 best 8B RETAINS 66\n",
    },
];

#[test]
fn small_bags(rt: HostRuntime) {
    report_with(&rt, rt.alloc(), SPARE, 1, &[&SMALL_BAGS]);
}

/// After six turns in a row without a standing play each player may lose the points of their own rack.
const STALE_GAMES: [Row; 4] = [
    Row {
        words: "RETAINS",
        game: ">A: - +0 0\n>B: - +0 0\n>A: - +0 0\n>B: - +0 0\n>A: - +0 0\n>B: - +0 0\n>A: AEINRST (AEINRST) -7 -7\n>B: AEINRST (AEINRST) -7 -7\n",
        report: "legal complete\n1 A - +0 0 best -\n2 B - +0 0 best -\n3 A - +0 0 best -\n4 B - +0 0 best -\n5 A - +0 0 best -\n6 B - +0 0 best -\n7 A (AEINRST) -7 -7\n8 B (AEINRST) -7 -7\n",
    },
    Row {
        words: "RETAINS",
        game: ">A: - +0 0\n>B: - +0 0\n>A: - +0 0\n>B: - +0 0\n>A: - +0 0\n>B: AEINRST (AEINRST) -7 -7\n",
        report: "illegal line 6: NotOver\n",
    },
    Row {
        words: "RETAINS",
        game: ">A: - +0 0\n>B: - +0 0\n>A: - +0 0\n>B: - +0 0\n>A: - +0 0\n>B: - +0 0\n>A: (???????) +0 0\n>A: - +0 0\n",
        report: "illegal line 8: GameOver\n",
    },
    Row {
        words: "RETAINS",
        game: ">A: - +0 0\n>B: - +0 0\n>A: - +0 0\n>B: - +0 0\n>A: - +0 0\n>B: - +0 0\n>B: (??????) +0 0\n",
        report: "illegal line 7: LastRackSize\n",
    },
];

#[test]
fn turns(rt: HostRuntime) {
    report_all(
        &rt,
        rt.alloc(),
        GameRules::English,
        &[&MOVERS, &WITHDRAWALS, &CHALLENGES, &EXCHANGES, &STALE_GAMES],
    );
}

/// A player who is out gains twice the points of the other rack, after at most one idle pass.
pub const OUT: [Row; 4] = [
    Row {
        words: "RETAINS",
        game: ">A: AEINRST 8D RETAINS +66 66\n>A: (ADEORTW) +22 88\n",
        report: "legal complete\n1 A 8D RETAINS +66 66 best 8B RETAINS 66\n2 A (ADEORTW) +22 88\n",
    },
    Row {
        words: "RETAINS",
        game: ">A: AEINRST 8D RETAINS +66 66\n>A: (ADEORW) +20 86\n",
        report: "illegal line 2: LastRackSize\n",
    },
    Row {
        words: "RETAINS",
        game: ">A: AEINRST 8D RETAINS +66 66\n>A: (ADEORTW) +22 88\n>A: (ADEORTW) +22 110\n",
        report: "illegal line 3: GameOver\n",
    },
    Row {
        words: "RETAINS",
        game: ">A: AEINRST 8D RETAINS +66 66\n>B: ADEORTW - +0 0\n>B: ADEORTW - +0 0\n",
        report: "illegal line 3: GameOver\n",
    },
];

/// A time penalty is a multiple of five points, once for each player.
const TIME: [Row; 3] = [
    Row {
        words: "RETAINS",
        game: ">A: AEINRST 8D RETAINS +66 66\n>B: ADEORTW - +0 0\n>A: (ADEORTW) +22 88\n>A: (time) -5 83\n",
        report: "legal complete\n1 A 8D RETAINS +66 66 best 8B RETAINS 66\n2 B - +0 0\n3 A (ADEORTW) +22 88\n4 A (time) -5 83\n",
    },
    Row {
        words: "RETAINS",
        game: ">A: AEINRST 8D RETAINS +66 66\n>B: ADEORTW - +0 0\n>A: (ADEORTW) +22 88\n>A: (time) -7 81\n",
        report: "illegal line 4: BadTime\n",
    },
    Row {
        words: "RETAINS",
        game: ">A: AEINRST 8D RETAINS +66 66\n>B: ADEORTW - +0 0\n>A: (ADEORTW) +22 88\n>A: (time) -5 83\n>A: (time) -5 78\n",
        report: "illegal line 5: BadTime\n",
    },
];

#[test]
fn games_of_14_tiles(rt: HostRuntime) {
    report_with(&rt, rt.alloc(), SHORT, 7, &[&LEAST_BAGS, &OUT, &TIME]);
}
