//! The chain of the cheapest changes.
ghost use Rattle.std.specs.Prelude.{◌≡◌, ◌≤◌, ◌+◌, ◌-◌, ◌*◌, ◌∷◌, [], None, IsTrue, IfOk, IfSome, OnOk, length, map, sum, if◌then◌else◌};
ghost use Rattle.repair_single.specs.Repairs.{IsRepair};
ghost use Rattle.repair_pairs.specs.Pairs.{ConcernsSheet, WrongOnSheet};
ghost use Rattle.repair_changes.specs.Numbers.{leaves_out};
ghost use Rattle.repair_pairs.specs.Chains.{IsFirst, IsLast, IsChain};
ghost use Rattle.repair_pairs.specs.Totals.{chain_cost, chain_numbers, chain_weight, remaining_of, step_weight};

use crate::first_steps::first_step;
use crate::found::Head;
use crate::news::is_of_sheet;
use gcg_read::{Event, Events};
use lex_list::WordList;
use ref_tiles::Rules;
use repair_changes::{NUMBER, Slip, leaves_out, numbers_with, remaining_cost, weight_of};
use repair_single::{Found, Repair, repairs};
use std::alloc::{AllocError, Global};

/// The maximum number of changes before the last one.
const MOST_STEPS: u8 = 7;

/// How many steps each search for a change may take: about as many as the events that it goes over.
const LIMIT: u64 = 500_000;

/// Changes of a record, one after the other, after which it is a legal game once its numbers are corrected.
#[derive(Drop)]
pub struct Chain {
    /// The changes but the last one, in their order: each is a change of the record that those before it make, and has the record that it makes.
    pub steps: Vec<Head>,
    /// The last change: a repair of the record that the others make.
    pub last: Repair,
}

/// How many events a sheet of `events` events has without a line that should not be there, or as many.
fn without(slip: &Slip, events: usize) -> usize
    ensures { result ≡ (if leaves_out slip.now then events - 1 else events) }
{
    if leaves_out(slip) {
        events.saturating_sub(1)
    } else {
        events
    }
}

/// How many events a sheet of `events` events has without the lines that changes leave out.
fn remaining_of(steps: &[Head], events: usize) -> usize
    ensures { result ≡ remaining_of steps.now events }
{
    let mut remaining = events;
    for step in steps {
        remaining = without(&step.first.change.slip, remaining);
    }
    remaining
}

/// What changes weigh.
fn step_weights(steps: &[Head]) -> u128
    ensures weight { result ≡ sum (map step_weight steps.now) }
    ensures few { result ≤ 18446744073709551615 * length steps.now }
{
    let mut weight = 0;
    for number in 0..steps.len() {
        weight += weight_of(&steps[number].first.change.slip) as u128;
    }
    weight
}

impl Chain {
    /// How many numbers a sheet of `events` events has with all changes: a score and a total on each line, except those that should not be there.
    pub fn numbers(&self, events: usize) -> u128
        ensures { result ≡ chain_numbers self.now events }
    {
        numbers_with(
            &self.last.listed.change.slip,
            remaining_of(self.steps.as_slice(), events),
        )
    }

    /// What all changes weigh.
    pub fn weight(&self) -> u128
        ensures weight { result ≡ chain_weight self.now }
        ensures few { result ≤ 18446744073709551615 * (length self.now.steps.items + 1) }
    {
        step_weights(self.steps.as_slice()) + weight_of(&self.last.listed.change.slip) as u128
    }

    /// What all changes cost: what they weigh, 5 for each number that stays wrong, and 3 for each word that is not in the list.
    pub fn cost(&self) -> u128
        ensures { result ≡ chain_cost self.now }
    {
        let remains = &self.last.remains;
        remaining_cost(remains.wrong.len(), remains.unlisted.len()) + self.weight()
    }
}

/// The first of the repairs that were found.
fn first_of(found: Found) -> Option<Repair>
    ensures { IsFirst found.reported.items result }
{
    found.reported.into_iter().next()
}

/// The likeliest repair of a record, if there is one.
#[tactic(auto, using(crate::proofs::Likeliest::first_is))]
fn likeliest(
    alloc: Global,
    rules: &Rules,
    list: &WordList,
    events: &mut Events,
) -> Result<Option<Repair>, AllocError>
    ensures repair { IfOk result (λ first. IfSome first (IsRepair rules.now list.now events.old [] None)) }
    ensures same { OnOk result (events.new ≡ events.old) }
{
    let found = repairs(alloc, rules, list, events, None, 1, Some(LIMIT))?;
    Ok(first_of(found))
}

/// Whether a repair is the last change of a chain: it costs less than `below`, and each line that it concerns and each number that stays wrong with it is on
/// the sheet.
fn is_last(events: &[Event], repair: &Repair, below: u128) -> bool
    ensures lines { IsTrue result → ConcernsSheet events.now repair.now.listed.change }
    ensures numbers { IsTrue result → WrongOnSheet repair.now }
{
    repair.remains.cost(&repair.listed.change.slip) < below && is_of_sheet(events, repair)
}

/// The likeliest repair of a record, if it is the last change of a chain.
fn last_of(
    alloc: Global,
    rules: &Rules,
    list: &WordList,
    events: &mut Events,
    below: u128,
) -> Result<Option<Repair>, AllocError>
    ensures last { IfOk result (λ last. IfSome last (IsLast rules.now list.now events.old)) }
    ensures same { OnOk result (events.new ≡ events.old) }
{
    let Some(last) = likeliest(alloc, rules, list, events)? else {
        return Ok(None);
    };
    if !is_last(events.as_slice(), &last, below) {
        return Ok(None);
    }
    Ok(Some(last))
}

/// The chain of one step and a last change.
fn two(alloc: Global, step: Head, last: Repair) -> Result<Chain, AllocError>
    ensures steps { IfOk result (λ c. c.steps.items ≡ step ∷ []) }
    ensures last { IfOk result (λ c. c.last ≡ last) }
{
    let mut steps = Vec::new(alloc);
    steps.push(step)?;
    Ok(Chain { steps, last })
}

/// A chain with one more step before the others.
fn with_step(step: Head, chain: Chain) -> Result<Chain, AllocError>
    ensures steps { IfOk result (λ c. c.steps.items ≡ step ∷ chain.steps.items) }
    ensures last { IfOk result (λ c. c.last ≡ chain.last) }
{
    let mut chain = chain;
    chain.steps.insert(0, step)?;
    Ok(chain)
}

/// A chain of at most `remaining` steps and a last change, of which the first step costs less than `below`, and each change after it less than a number more.
fn go_on(
    alloc: Global,
    rules: &Rules,
    list: &WordList,
    events: &mut Events,
    remaining: u8,
    below: u128,
) -> Result<Option<Chain>, AllocError>
    ensures reported { IfOk result (λ reported. IfSome reported (IsChain rules.now list.now events.old remaining)) }
    ensures same { OnOk result (events.new ≡ events.old) }
{
    if remaining == 0 {
        return Ok(None);
    }
    let Some(mut step) = first_step(alloc, rules, list, events, below, LIMIT)? else {
        return Ok(None);
    };
    let more = below.saturating_add(NUMBER);
    if let Some(last) = last_of(alloc, rules, list, &mut step.made, more)? {
        return Ok(Some(two(alloc, step, last)?));
    }
    let Some(rest) = go_on(alloc, rules, list, &mut step.made, remaining - 1, more)? else {
        return Ok(None);
    };
    Ok(Some(with_step(step, rest)?))
}

/// A chain of changes after which a record is a legal game once its numbers are corrected, up to eight: each the cheapest one with which the fault moves on,
/// by the numbers of the sheet, and the last one a repair. The first may cost less than a wrong number, and each of the others a number more. Afterwards the
/// events are as they were written.
///
/// Nothing says that no other chain does it, or that this one is the cheapest. It fails only if memory runs out.
///
/// Each change but the last is a single change of the record that those before it make, and the last one is a repair of the record that these make
/// together.
pub fn find_chain(
    alloc: Global,
    rules: &Rules,
    list: &WordList,
    events: &mut Events,
) -> Result<Option<Chain>, AllocError>
    ensures reported { IfOk result (λ reported. IfSome reported (IsChain rules.now list.now events.old 7)) }
    ensures same { OnOk result (events.new ≡ events.old) }
{
    go_on(alloc, rules, list, events, MOST_STEPS, NUMBER)
}
