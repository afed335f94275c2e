//! Deals of records: bounds, the deal of the rule, and its check.
use super::settling;
use super::steps::short_rules;
use Answer::{Exceeds, Fits, NoDeal};
use Game::{English, Short};
use game_deal::DealFault::{RackTooBig, TilesShort};
use game_deal::{DealFault, bounds, complete, fits, law_of_bounds, law_of_runs, law_of_tiles};
use game_turns::{Passed, play_through};
use gcg_read::{EventKind, read};
use lex_list::WordList;
use ref_tiles::{Kind, Letter, Rules, english_rules};
use std::alloc::Global;
use std::process::Abort;

/// Which rules a row is judged by.
#[derive(Clone, Copy, Debug)]
enum Game {
    /// The English game.
    English,
    /// The English game with 14 tiles: two each of A, E, R and T, one each of D, I, N, O, S and W.
    Short,
}

/// What becomes of the deal of a row.
#[derive(Clone, Copy, Debug, PartialEq, Eq)]
enum Answer {
    /// There is one, and it fits.
    Fits,
    /// No bound is exceeded, and the rule gives no deal.
    NoDeal,
    /// This bound is exceeded.
    Exceeds(DealFault),
}

/// The rules and the list that records are judged by, the records, and what becomes of their deals.
const ROWS: [(Game, &[u8], &[u8], Answer); 10] = [
    (English, b"WORD", b"", Fits),
    (
        Short,
        b"RETAINS",
        b">A: AEINRST 8D RETAINS +66 66\n>A: (ADEORTW) +22 88\n",
        Fits,
    ),
    (
        Short,
        b"RETAINS",
        b">A: AEINRST 8D RETAINS +66 66\n>A: (ADEORTT) +16 82\n",
        Exceeds(TilesShort {
            line: 2,
            kind: Kind::Letter(Letter { index: 19 }),
        }),
    ),
    (
        English,
        b"AT",
        b">A: AEI -5 +0 0\n>B: QU - +0 0\n>A: SX - +0 0\n",
        Fits,
    ),
    (
        English,
        b"AT",
        b">A: ?? - +0 0\n>B: ? - +0 0\n",
        Exceeds(TilesShort {
            line: 2,
            kind: Kind::Blank,
        }),
    ),
    (
        English,
        b"AT",
        b">A: AEINRST 8H AT +4 4\n>B: - +0 0\n>A: AAABCDE - +0 4\n",
        Exceeds(RackTooBig { line: 3 }),
    ),
    (
        English,
        b"AT",
        b">A: Q -Q +0 0\n>B: - +0 0\n>A: Q - +0 0\n",
        NoDeal,
    ),
    (
        English,
        b"WORD\nAT\nRA",
        b">A: DORWAAE 8E WORD +16 16\n>B: AT 9G AT +9 9\n>B: AT -- -9 0\n>A: AT 9G AT +9 25\n",
        Fits,
    ),
    (
        English,
        b"RETAINS",
        b">A: - +0 0\n>B: - +0 0\n>A: - +0 0\n>B: - +0 0\n>A: - +0 0\n>B: - +0 0\n>A: AEINRST (AEINRST) -7 -7\n>B: AEINRST (AEINRST) -7 -7\n",
        Fits,
    ),
    (
        Short,
        b"RETAINS",
        b">A: AEINRST 8D RETAINS +66 66\n>B: ADEORTW - +0 0\n>A: (ADEORTW) +22 88\n>A: (time) -5 83\n",
        Fits,
    ),
];

fn rules_of(rt: &impl Abort, game: Game) -> Rules {
    match game {
        English => english_rules(),
        Short => short_rules(rt),
    }
}

/// What becomes of the deal of a record that passed.
fn answer_of(rt: &impl Abort, alloc: Global, passed: &Passed<'_>) -> Answer {
    let needs = match bounds(alloc, passed) {
        Ok(needs) => needs,
        Err(fault) => return Exceeds(fault),
    };
    match complete(alloc, &needs).expect(rt, "memory") {
        Some(deal) => {
            assert!(rt; fits(passed, &deal));
            assert!(rt; needs.is_fitted_by(&deal));
            assert_eq!(rt; deal.held.len(), passed.record().events.len());
            Fits
        }
        None => NoDeal,
    }
}

/// Whether tiles are exchanged.
fn is_exchange(kind: &EventKind) -> bool {
    matches!(kind, EventKind::Exchange(_) | EventKind::ExchangeUnknown(_))
}

/// What becomes of the deal of a record. The rule gives one if no bound is exceeded and there is no exchange.
fn reported(rt: &impl Abort, alloc: Global, rules: &Rules, words: &[u8], lines: &[u8]) -> Answer {
    let record = read(alloc, lines).expect(rt, "a record");
    let list = WordList::read(alloc, words).expect(rt, "a word list");
    let passed = play_through(rules, &record, &list).expect(rt, "a record that passed");
    let answer = answer_of(rt, alloc, &passed);
    let mut events = record.events.as_slice().iter();
    let has_exchange = events.any(|event| is_exchange(&event.kind));
    assert!(rt; answer != NoDeal || has_exchange, "{:?}", lines);
    answer
}

#[test]
fn deals(rt: HostRuntime) {
    for (game, words, lines, expected) in &ROWS {
        let answer = reported(&rt, rt.alloc(), &rules_of(&rt, *game), words, lines);
        assert_eq!(rt; answer, *expected, "{:?}", lines);
    }
    law_of_runs();
    law_of_bounds();
    law_of_tiles();
}

/// No bound is exceeded in the records that a search settles, and if the rule gives a record a deal, the search deals it too.
#[test]
fn deals_beside_a_search(rt: HostRuntime) {
    let rules = english_rules();
    for (lines, settled) in &settling::ROWS {
        match reported(&rt, rt.alloc(), &rules, b"AT", lines) {
            Fits => assert_eq!(rt; *settled, settling::Answer::Dealt, "{:?}", lines),
            NoDeal => {}
            Exceeds(fault) => assert!(rt; false, "{fault:?} {lines:?}"),
        }
    }
}
