//! The search for choices that a single change repairs.
ghost use Rattle.std.specs.Prelude.{◌≡◌, All, IfOk};
ghost use Rattle.compare_repaired.specs.Repaired.{IsRepairedChoice, AreTried, AreRepaired};

use crate::best::{best_of, least_of};
use crate::events::events_of;
use crate::furthest::furthest;
use crate::repaired::{RepairedChoice, RepairedChoices};
use compare_choices::{Comparison, Find, Sheets};
use lex_list::WordList;
use ref_tiles::Rules;
use repair_single::repairs;
use std::alloc::{AllocError, Global};

/// How many repairs of each choice are kept: the first, and one that may cost as little.
const MOST_REPAIRS: usize = 2;

/// How many steps the search for the repairs of a choice may take: about as many as the events that it goes over.
const LIMIT: u64 = 1_000_000;

/// Fewer numbers and words than these stay wrong with each repair that costs no more than those before, as each costs at least 3.
fn below_of(tried: &[RepairedChoice]) -> Option<usize> {
    let least = least_of(tried)?;
    if least.cost < 3000 {
        Some((least.cost / 3) as usize + 1)
    } else {
        None
    }
}

/// What repairs a choice.
fn repaired_by(
    alloc: Global,
    rules: &Rules,
    list: &WordList,
    sheets: &Sheets,
    choice: usize,
    below: Option<usize>,
) -> Result<RepairedChoice, AllocError>
    ensures { IfOk result (IsRepairedChoice rules.now list.now sheets.now) }
{
    let mut written = events_of(alloc, sheets, choice)?;
    let found = repairs(
        alloc,
        rules,
        list,
        &mut written,
        below,
        MOST_REPAIRS,
        Some(LIMIT),
    )?;
    Ok(RepairedChoice {
        choice,
        written,
        below,
        found,
    })
}

/// What repairs the choices that go furthest.
fn tried_of(
    alloc: Global,
    rules: &Rules,
    list: &WordList,
    sheets: &Sheets,
) -> Result<Vec<RepairedChoice>, AllocError>
    ensures { IfOk result (λ tried. All (IsRepairedChoice rules.now list.now sheets.now) tried.items) }
{
    let first = furthest(alloc, rules, list, sheets)?;
    let mut tried = Vec::new(alloc);
    for reach in first.as_slice() {
        let below = below_of(tried.as_slice());
        let repaired = repaired_by(alloc, rules, list, sheets, reach.choice, below)?;
        tried.push(repaired)?;
    }
    Ok(tried)
}

/// The same, if no choice makes a game or is left open. None are looked for if the sheets are drafts that lack numbers.
fn tried_by(
    alloc: Global,
    rules: &Rules,
    list: &WordList,
    sheets: &Sheets,
    find: &Find,
) -> Result<Vec<RepairedChoice>, AllocError>
    ensures { IfOk result (λ tried. AreTried rules.now list.now sheets.now find.now tried.items) }
{
    if find.best.is_some() || !find.remaining.is_empty() {
        return Ok(Vec::new(alloc));
    }
    if sheets.lacks.is_some() {
        return Ok(Vec::new(alloc));
    }
    tried_of(alloc, rules, list, sheets)
}

/// The choices that go furthest and the first repairs of each, if no choice of two sheets makes a game or is left open.
///
/// It fails only if memory runs out.
///
/// Each choice that is tried has the first two repairs of its events. The best is one whose first repair costs no more than any other first one, and
/// the answer says whether each other repair that was found costs more or makes a record of the same game. Which choices are tried is not promised,
/// nor that no other choice or change does better.
#[tactic(auto, using(crate::proofs::Least::games_of))]
pub fn repaired_choices(
    alloc: Global,
    rules: &Rules,
    list: &WordList,
    sheets: &Sheets,
    comparison: &Comparison,
) -> Result<RepairedChoices, AllocError>
    ensures { IfOk result (AreRepaired rules.now list.now sheets.now comparison.now.find) }
{
    let tried = tried_by(alloc, rules, list, sheets, &comparison.find)?;
    let best = best_of(rules, list, tried.as_slice());
    Ok(RepairedChoices { tried, best })
}
