//! Records that are judged over memory.
use super::pieces::reported_of;
use engine_stages::Verdict;
use gcg_read::{EventKind, read};
use lex_build::build;
use lex_list::WordList;
use ref_tiles::{Rules, english_rules};
use std::alloc::Global;
use std::process::Abort;
use test_calls::{Call, GameRules, Inputs};
use test_samples::tiles_of;

/// A word list, a record, and what is written of them. The lexicon is that of the list.
pub struct Row {
    /// The text of the word list.
    pub words: &'static str,
    /// The record.
    pub game: &'static str,
    /// What is written.
    pub report: &'static str,
}

impl Row {
    /// Judges the record by rules, and gives the verdict and what was written.
    pub fn judged(
        &self,
        rt: &impl Abort,
        alloc: Global,
        rules: GameRules<'_>,
    ) -> (Verdict, Vec<u8>) {
        judged(
            rt,
            alloc,
            rules,
            self.words.as_bytes(),
            self.game.as_bytes(),
        )
    }
}

/// What a call reports of a record by words and their lexicon: the verdict and what was written.
pub fn reported_by(
    rt: &impl Abort,
    alloc: Global,
    call: Call<'_>,
    rules: GameRules<'_>,
    words: &[u8],
    game: &[u8],
) -> (Verdict, Vec<u8>) {
    let file = lexicon_of(rt, alloc, words);
    let inputs = Inputs {
        rules,
        words,
        lexicon: &file,
        game,
    };
    reported_of(rt, alloc, call, &inputs)
}

/// Judges a record by rules, and by words and their lexicon, and gives the verdict and what was written. A record without an exchange
/// is settled.
pub fn judged(
    rt: &impl Abort,
    alloc: Global,
    rules: GameRules<'_>,
    words: &[u8],
    game: &[u8],
) -> (Verdict, Vec<u8>) {
    let reported = reported_by(rt, alloc, Call::Judge, rules, words, game);
    assert_settled(rt, alloc, reported.0 == Verdict::Unsettled, game);
    reported
}

/// Judges a record, and gives the verdict and what was written. Bytes read one by one and seven at once give the same, and a record
/// without an exchange is settled.
pub fn judged_by(rt: &impl Abort, alloc: Global, inputs: &Inputs<'_>) -> (Verdict, Vec<u8>) {
    let reported = reported_of(rt, alloc, Call::Judge, inputs);
    assert_settled(rt, alloc, reported.0 == Verdict::Unsettled, inputs.game);
    reported
}

/// Asserts that a record has an exchange, if it stays unsettled.
pub fn assert_settled(rt: &impl Abort, alloc: Global, is_unsettled: bool, game: &[u8]) {
    if is_unsettled {
        let record = read(alloc, game).expect(rt, "a record");
        let mut events = record.events.as_slice().iter();
        assert!(rt; events.any(|event| is_exchange(&event.kind)), "{:?}", game);
    }
}

/// Whether tiles were exchanged.
fn is_exchange(kind: &EventKind) -> bool {
    matches!(kind, EventKind::Exchange(_) | EventKind::ExchangeUnknown(_))
}

/// The lexicon that is built for a word list; no bytes if the text is not one.
pub fn lexicon_of(rt: &impl Abort, alloc: Global, words: &[u8]) -> Vec<u8> {
    match WordList::read(alloc, words) {
        Ok(list) => build(alloc, &list).expect(rt, "a lexicon"),
        Err(_) => Vec::new(alloc),
    }
}

/// Asserts what is written of each record of some tables.
pub fn report_all(rt: &impl Abort, alloc: Global, rules: GameRules<'_>, tables: &[&[Row]]) {
    for rows in tables {
        report_rows(rt, alloc, rules, rows);
    }
}

/// Asserts what is written of each row's record.
fn report_rows(rt: &impl Abort, alloc: Global, rules: GameRules<'_>, rows: &[Row]) {
    for row in rows {
        let (_verdict, report) = row.judged(rt, alloc, rules);
        assert_eq!(rt; report.as_slice(), row.report.as_bytes(), "{}", row.report);
    }
}

/// Asserts what is written of each record of some tables, by the English rules except for the tiles and the least bag of an
/// exchange.
pub fn report_with(
    rt: &impl Abort,
    alloc: Global,
    tiles: &[u8],
    exchange_min: u8,
    tables: &[&[Row]],
) {
    let rules = rules_with(rt, tiles, exchange_min);
    report_all(rt, alloc, GameRules::Known(&rules), tables);
}

/// Rules with the English numbers and premiums, and only these tiles.
pub fn rules_with(rt: &impl Abort, tiles: &[u8], exchange_min: u8) -> Rules {
    let mut parts = english_rules().parts();
    parts.counts = tiles_of(tiles).expect(rt, "tiles");
    parts.exchange_min = exchange_min;
    Rules::checked(parts).expect(rt, "within the limits")
}
