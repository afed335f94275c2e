//! Plays: where they may be laid, what they score, and which of their words are not in the list.
use super::games::{Row, report_all};
use test_calls::GameRules;

/// Where a play may be laid: on the board, on empty squares, whole, through the centre first, and then next to a tile.
pub const PLACES: [Row; 9] = [
    Row {
        words: "WORD",
        game: ">A: DORWAAE 8D WORD +16 16\n",
        report: "illegal line 1: MissesCentre\n",
    },
    Row {
        words: "WORD",
        game: ">A: 8N ABC +0 0\n",
        report: "illegal line 1: OffBoard\n",
    },
    Row {
        words: "WORD",
        game: ">A: 15O A +0 0\n",
        report: "illegal line 1: MissesCentre\n",
    },
    Row {
        words: "WORD",
        game: ">A: 8H A +0 0\n",
        report: "illegal line 1: TooShort\n",
    },
    Row {
        words: "WORD",
        game: ">A: DORWAAE 8E WORD +16 16\n>B: 8D QUA +0 0\n",
        report: "illegal line 2: Mismatch\n",
    },
    Row {
        words: "WORD",
        game: ">A: DORWAAE 8E WORD +16 16\n>B: 8E .... +0 0\n",
        report: "illegal line 2: NoNewTile\n",
    },
    Row {
        words: "WORD",
        game: ">A: DORWAAE 8E WORD +16 16\n>B: 1A ABCDEFGH +0 0\n",
        report: "illegal line 2: TooManyTiles\n",
    },
    Row {
        words: "WORD",
        game: ">A: DORWAAE 8E WORD +16 16\n>B: 8D S +0 0\n",
        report: "illegal line 2: NotWhole\n",
    },
    Row {
        words: "WORD",
        game: ">A: DORWAAE 8E WORD +16 16\n>B: 1A AT +0 0\n",
        report: "illegal line 2: Apart\n",
    },
];

/// What a play scores: letters, premiums under new tiles, blanks, words across, seven tiles.
const SCORES: [Row; 10] = [
    Row {
        words: "WORD",
        game: ">A: DORWAAE 8E WORD +16 16\n",
        report: "legal unfinished\n1 A 8E WORD +16 16 best 8E WORD 16\n",
    },
    Row {
        words: "WORD",
        game: ">A: DORWAAE 8E WORD +18 18\n",
        report: "illegal line 1: WrongScore 16\n",
    },
    Row {
        words: "WORD",
        game: ">A: DOW? 8E WOrD +14 14\n",
        report: "legal unfinished\n1 A 8E WOrD +14 14 best -\n",
    },
    Row {
        words: "WORD",
        game: ">A: DOW? 8E WOrD +16 16\n",
        report: "illegal line 1: WrongScore 14\n",
    },
    Row {
        words: "RETAINS",
        game: ">A: AEINRST 8B RETAINS +66 66\n",
        report: "legal unfinished\n1 A 8B RETAINS +66 66 best 8B RETAINS 66\n",
    },
    Row {
        words: "",
        game: "no event\n>A: 8E WORD -1 16",
        report: "illegal line 2: WrongScore 16\n",
    },
    Row {
        words: "WORD\nAT\nRA\nEAT\nOE",
        game: ">A: DORWAAE 8E WORD +16 16\n>B: AT 9G AT +9 9\n>A: E 9F E.. +5 21\n",
        report: "legal unfinished\n1 A 8E WORD +16 16 best 8E WORD 16\n2 B 9G AT +9 9 best - unlisted DT\n3 A 9F E.. +5 21 best -\n",
    },
    Row {
        words: "WORD\nAT\nRA\nEAT\nOE",
        game: ">A: DORWAAE 8E WORD +16 16\n>B: AT 9G AT +9 9\n>A: E F8 .E +5 21\n",
        report: "legal unfinished\n1 A 8E WORD +16 16 best 8E WORD 16\n2 B 9G AT +9 9 best - unlisted DT\n3 A F8 .E +5 21 best -\n",
    },
    Row {
        words: "WORD\nAT\nRA\nEAT\nOE",
        game: ">A: DORWAAE 8E WORD +16 16\n>B: AT 9G AT +9 9\n>A: 9F E(AT) +5 21\n",
        report: "legal unfinished\n1 A 8E WORD +16 16 best 8E WORD 16\n2 B 9G AT +9 9 best - unlisted DT\n3 A 9F EAT +5 21 best -\n",
    },
    Row {
        words: "WORD",
        game: ">A: DORWAAE 8E WORD +16 16\n>B: AT 9G AT +9 9\n>A: E 9F E.. +6 22\n",
        report: "illegal line 3: WrongScore 5\n",
    },
];

/// The running total is the sum of the scores of the player.
const TOTALS: [Row; 2] = [
    Row {
        words: "WORD",
        game: ">A: DORWAAE 8E WORD +16 17\n",
        report: "illegal line 1: WrongTotal 16\n",
    },
    Row {
        words: "WORD",
        game: ">A: DORWAAE 8E WORD +16 16\n>B: AT 9G AT +9 25\n",
        report: "illegal line 2: WrongTotal 9\n",
    },
];

/// Phonies, words that are not in the list, stand if nobody challenges them, and are reported.
const UNLISTED: [Row; 5] = [
    Row {
        words: "",
        game: ">A: DORWAAE 8E WORD +16 16\n",
        report: "legal unfinished\n1 A 8E WORD +16 16 best none unlisted WORD\n",
    },
    Row {
        words: "WORD\nAT\nRA\n",
        game: ">A: DORWAAE 8E WORD +16 16\n>B: AT 9G AT +9 9\n",
        report: "legal unfinished\n1 A 8E WORD +16 16 best 8E WORD 16\n2 B 9G AT +9 9 best - unlisted DT\n",
    },
    Row {
        words: "WORD\nAT\nRA\nDT\n",
        game: ">A: DORWAAE 8E WORD +16 16\n>B: AT 9G AT +9 9\n",
        report: "legal unfinished\n1 A 8E WORD +16 16 best 8E WORD 16\n2 B 9G AT +9 9 best -\n",
    },
    Row {
        words: "WORD",
        game: ">A: DORWAAE 8E WORD +16 16\n>B: A? 9G At +7 7\n",
        report: "legal unfinished\n1 A 8E WORD +16 16 best 8E WORD 16\n2 B 9G At +7 7 best - unlisted AT RA DT\n",
    },
    Row {
        words: "WORD",
        game: ">A: DORWAAE 8E WORD +16 16\n>B: 8E WORDS +9 9\n",
        report: "legal unfinished\n1 A 8E WORD +16 16 best 8E WORD 16\n2 B 8E WORDS +9 9 best - unlisted WORDS\n",
    },
];

#[test]
fn plays(rt: HostRuntime) {
    report_all(
        &rt,
        rt.alloc(),
        GameRules::English,
        &[&PLACES, &SCORES, &TOTALS, &UNLISTED],
    );
}
