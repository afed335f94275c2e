//! Several changes that repair a record, one after the other.

use crate::changes::{push_change, push_change_at};
use crate::evidence::push_evidence;
use explain_parts::{Part, say};
use gcg_read::{Event, Record};
use repair_pairs::{Chain, later_spot};
use std::alloc::AllocError;

/// The events after a step; none if there is no such step.
fn made_by(chain: &Chain, step: usize) -> &[Event] {
    match chain.steps.as_slice().get(step) {
        Some(step) => step.made.as_slice(),
        None => &[],
    }
}

/// Appends the change of a step.
fn push_step(
    text: &mut Vec<u8>,
    record: &Record,
    chain: &Chain,
    number: usize,
) -> Result<(), AllocError> {
    let Some(step) = chain.steps.as_slice().get(number) else {
        return Ok(());
    };
    let change = &step.first.change;
    let made = step.made.as_slice();
    let players = &record.players;
    if number == 0 {
        return push_change(text, players, record.events.as_slice(), change, made);
    }
    let before = made_by(chain, number - 1);
    push_change_at(
        text,
        players,
        before,
        change,
        made,
        later_spot(before, change),
    )
}

/// Appends the steps but the last change, each on a line.
fn push_steps(text: &mut Vec<u8>, record: &Record, chain: &Chain) -> Result<(), AllocError> {
    for number in 0..chain.steps.len() {
        push_step(text, record, chain, number)?;
        text.extend_from_slice(b"\n")?;
    }
    Ok(())
}

/// Appends the last change, and the evidence of all of them.
fn push_last(text: &mut Vec<u8>, record: &Record, chain: &Chain) -> Result<(), AllocError> {
    let before = made_by(chain, chain.steps.len().saturating_sub(1));
    let change = &chain.last.listed.change;
    let right = chain.last.right.as_slice();
    let spot = later_spot(before, change);
    push_change_at(text, &record.players, before, change, right, spot)?;
    text.extend_from_slice(b"\n")?;
    let numbers = chain.numbers(record.events.len());
    push_evidence(text, &chain.last.remains, numbers)
}

/// Appends the changes that repair a record one after the other, if they were found, with their evidence.
pub(crate) fn push_chain(
    text: &mut Vec<u8>,
    record: &Record,
    chain: &Option<Chain>,
) -> Result<(), AllocError> {
    let Some(chain) = chain else {
        return Ok(());
    };
    let many = chain.steps.len().saturating_add(1);
    say(
        text,
        &[
            Part::Say("with "),
            Part::Things(many, "change"),
            Part::Say(", one after the other:\n"),
        ],
    )?;
    push_steps(text, record, chain)?;
    push_last(text, record, chain)
}
