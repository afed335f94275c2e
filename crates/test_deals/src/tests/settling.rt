//! Records, and what settles them: a deal, a proof that there is none, or nothing within the budget.
use Answer::{Dealt, NoDeal, Unknown};
use deal_cuts::{Earlier, rules_out};
use deal_search::{Settling, settle, settle_within};
use deal_steps::{Step, fits};
use game_deal::all_steps;
use game_turns::play_through;
use gcg_read::read;
use lex_list::WordList;
use ref_tiles::{Rules, english_rules};
use std::alloc::{AllocError, Global};
use std::process::Abort;

/// What settles a row.
#[derive(Clone, Copy, Debug, PartialEq, Eq)]
pub enum Answer {
    /// A deal that fits.
    Dealt,
    /// No racks fit this many first steps, and some fit those before the last of them.
    NoDeal(usize),
    /// Nothing was found within the budget.
    Unknown,
}

/// Records, and what settles them.
pub const ROWS: [(&[u8], Answer); 10] = [
    (b"", Dealt),
    (
        b">A: AEINRST -7 +0 0\n>B: - +0 0\n>A: BCDFGHJ - +0 0\n",
        Dealt,
    ),
    (
        b">A: AEINRST -1 +0 0\n>B: - +0 0\n>A: BCDFGHJ - +0 0\n",
        NoDeal(3),
    ),
    (
        b">A: AEINRST -1 +0 0\n>B: - +0 0\n>A: BCDFGHJ - +0 0\n>B: - +0 0\n>A: - +0 0\n",
        NoDeal(3),
    ),
    (
        b">A: AEINRST -1 +0 0\n>B: - +0 0\n>A: AEINRSB - +0 0\n",
        Dealt,
    ),
    (b">A: Q -Q +0 0\n>B: - +0 0\n>A: Q - +0 0\n", NoDeal(3)),
    (
        b">A: Q -Q +0 0\n>B: -2 +0 0\n>A: - +0 0\n>B: Q - +0 0\n",
        Dealt,
    ),
    (
        b">A: Q -Q +0 0\n>B: - +0 0\n>A: - +0 0\n>B: Q - +0 0\n",
        NoDeal(4),
    ),
    (
        b">A: Q -Q +0 0\n>B: - +0 0\n>A: Q - +0 0\n>B: - +0 0\n>A: Q - +0 0\n",
        NoDeal(3),
    ),
    (
        b">A: Q -Q +0 0\n>B: - +0 0\n>A: - +0 0\n>B: Q - +0 0\n>A: - +0 0\n>B: Q - +0 0\n",
        NoDeal(4),
    ),
];

/// The steps of a record whose events are allowed.
fn steps_of(alloc: Global, rules: &Rules, lines: &[u8]) -> Option<Vec<Step>> {
    let record = read(alloc, lines).ok()?;
    let list = WordList::read(alloc, b"AT").ok()?;
    let passed = play_through(rules, &record, &list).ok()?;
    all_steps(alloc, &passed).ok()
}

/// What settles steps. Deals and cuts are checked once more.
fn answer_of(
    rt: &impl Abort,
    rules: &Rules,
    steps: &[Step],
    settled: Result<Settling, AllocError>,
) -> Option<Answer> {
    match settled {
        Ok(Settling::Dealt(deal)) => {
            assert!(rt; fits(rules, steps, deal.as_slice()));
            Some(Dealt)
        }
        Ok(Settling::NoDeal { cut, earlier }) => {
            assert!(rt; rules_out(rules, steps, &cut));
            assert_eq!(rt; earlier, Earlier::Dealt);
            Some(NoDeal(cut.places.len()))
        }
        Ok(Settling::Unknown) => Some(Unknown),
        Err(_) => None,
    }
}

#[test]
fn settles(rt: HostRuntime) {
    let rules = english_rules();
    for (lines, expected) in &ROWS {
        let steps = steps_of(rt.alloc(), &rules, lines).expect(&rt, "a record that passed");
        let settled = settle(rt.alloc(), &rules, &steps);
        let answer = answer_of(&rt, &rules, &steps, settled).expect(&rt, "memory");
        assert_eq!(rt; answer, *expected, "{:?}", lines);
    }
}

/// If the budget is spent, nothing is known, whatever is true.
#[test]
fn spends_its_budget(rt: HostRuntime) {
    let rules = english_rules();
    for (lines, _) in &ROWS {
        let steps = steps_of(rt.alloc(), &rules, lines).expect(&rt, "a record that passed");
        let settled = settle_within(rt.alloc(), &rules, &steps, 0);
        let answer = answer_of(&rt, &rules, &steps, settled).expect(&rt, "memory");
        assert_eq!(rt; answer, Unknown, "{:?}", lines);
    }
}

/// If memory is refused, the answer says so, and otherwise what settles the row.
#[test]
fn refused_while_settling(rt: HostRuntime) {
    let rules = english_rules();
    for (lines, expected) in &ROWS {
        if let Some(steps) = steps_of(rt.alloc(), &rules, lines) {
            let settled = settle(rt.alloc(), &rules, &steps);
            if let Some(answer) = answer_of(&rt, &rules, &steps, settled) {
                assert_eq!(rt; answer, *expected, "{:?}", lines);
            }
        }
    }
}
