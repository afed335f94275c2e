//! Repairs that share a line, and pairs of changes that do.
ghost use Rattle.std.specs.Prelude.{◌≡◌, ◌<◌, ◌++◌, Bool, length, IfOk, OnOk};
ghost use Rattle.repair_answers.specs.Lines.{like_at, is_first, those_like, others_of, AddsLine, AreLines, is_before, before_numbers};

use crate::alike::is_like;
use crate::choices::cost_of;
use crate::numbers_alone::NumbersAlone;
use repair_pairs::Pair;
use repair_single::Repair;
use std::alloc::{AllocError, Global};

/// Repairs of one kind and one cost at one place, which differ in a letter or in how many tiles are exchanged; or pairs with the same first change, whose
/// second ones are such repairs: their numbers among all that were found.
#[derive(Drop)]
pub struct Reported {
    /// The first of them.
    pub first: usize,
    /// The others, in their order.
    pub others: Vec<usize>,
}

/// What may share a line with others of its kind.
pub(crate) trait Lined {
    // Whether both are on one line.
    ghost like: { Self → Self → Bool };

    /// Whether both are on one line.
    fn shares_line(&self, other: &Self) -> bool
        ensures { result ≡ like self.now other.now };
}

impl Lined for Repair {
    ghost use Rattle.repair_answers.specs.Alike.{is_like};

    ghost like = { is_like };

    fn shares_line(&self, other: &Repair) -> bool {
        is_like(self, other)
    }
}

impl Lined for Pair {
    ghost use Rattle.repair_answers.specs.Alike.{are_like_pairs};

    ghost like = { are_like_pairs };

    fn shares_line(&self, other: &Pair) -> bool {
        self.head == other.head && is_like(&self.then, &other.then)
    }
}

/// Whether the items at two numbers are alike.
fn are_like<T: Lined>(items: &[T], first: usize, other: usize) -> bool
    ensures { result ≡ like_at T.like items.now first other }
{
    match (items.get(first), items.get(other)) {
        (Some(one), Some(two)) => one.shares_line(two),
        _ => false,
    }
}

/// Whether the item at a number is the first of its line: it is like none before it.
fn is_first<T: Lined>(items: &[T], index: usize) -> bool
    ensures { result ≡ is_first T.like items.now index }
{
    for before in 0..index {
        if are_like(items, before, index) {
            return false;
        }
    }
    true
}

/// Adds the number of an item, if it is like the first of a line.
#[tactic(auto, using(crate::proofs::Grouped::one_added, crate::proofs::Grouped::none_added))]
fn push_like<T: Lined>(
    others: &mut Vec<usize>,
    items: &[T],
    first: usize,
    other: usize,
) -> Result<(), AllocError>
    ensures { OnOk result (others.new.items ≡ others.old.items ++ those_like T.like items.now first other) }
{
    if !are_like(items, first, other) {
        return Ok(());
    }
    others.push(other)?;
    Ok(())
}

/// The numbers of the items after one that are like it.
fn others_of<T: Lined>(alloc: Global, items: &[T], first: usize) -> Result<Vec<usize>, AllocError>
    requires { first < length items.now }
    ensures { IfOk result (λ others. others.items ≡ others_of T.like items.now first) }
{
    let mut others = Vec::new(alloc);
    for other in first + 1..items.len() {
        push_like(&mut others, items, first, other)?;
    }
    Ok(others)
}

/// Adds the line of the item at a number, if the item is the first of a line.
fn push_line_of_first<T: Lined>(
    alloc: Global,
    lines: &mut Vec<Reported>,
    items: &[T],
    index: usize,
) -> Result<(), AllocError>
    requires { index < length items.now }
    ensures { OnOk result (AddsLine T.like items.now index lines.old.items lines.new.items) }
{
    if !is_first(items, index) {
        return Ok(());
    }
    let others = others_of(alloc, items, index)?;
    lines.push(Reported {
        first: index,
        others,
    })?;
    Ok(())
}

/// The first `most` lines of repairs, or of pairs of changes.
pub(crate) fn lines_of<T: Lined>(
    alloc: Global,
    items: &[T],
    most: usize,
) -> Result<Vec<Reported>, AllocError>
    ensures { IfOk result (λ lines. AreLines T.like items.now most lines.items) }
{
    let mut lines = Vec::new(alloc);
    for index in 0..items.len() {
        if lines.len() == most {
            return Ok(lines);
        }
        push_line_of_first(alloc, &mut lines, items, index)?;
    }
    Ok(lines)
}

/// Whether the first repair of a line costs less than correcting only the numbers.
fn is_before(alone: &NumbersAlone, repairs: &[Repair], line: &Reported) -> bool
    ensures { result ≡ is_before alone.now repairs.now line.now }
{
    match repairs.get(line.first) {
        Some(repair) => cost_of(repair) < alone.cost(),
        None => false,
    }
}

/// How many of some lines cost less than correcting only the numbers; none if more than numbers is wrong.
pub(crate) fn before_numbers(
    alone: &Option<NumbersAlone>,
    repairs: &[Repair],
    lines: &[Reported],
) -> usize
    ensures { result ≡ before_numbers alone.now repairs.now lines.now }
{
    match alone {
        Some(alone) => lines
            .iter()
            .filter(|line| is_before(alone, repairs, line))
            .count(),
        None => 0,
    }
}
