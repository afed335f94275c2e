//! Up to which line a deal gives the racks that are shown, and what cannot be dealt.
ghost use Rattle.std.specs.Prelude.{◌≡◌, ◌+◌, ◌<◌, ◌++◌, None, take, length, IfOk, IfSome, IsFalse, OnOk};
ghost use Rattle.deal_steps.specs.Bounds.{first_bound};
ghost use Rattle.explain_facts.specs.Deals.{exchanged_by, exchanged_by_motion, exchange_line, exchange_lines};
ghost use Rattle.explain_facts.specs.Facts.{IsTrueOfRacks};

use crate::clashes::clash_at;
use crate::facts::{DealFact, ExchangeLine, Fact};
use deal_search::{Settling, settle};
use deal_steps::{Act, Motion, Step, first_bound};
use ref_tiles::Rules;
use std::alloc::{AllocError, Global};

/// That a deal gives the racks that the lines before a step show; none if no deal was found for them.
///
/// It fails only if memory runs out.
#[tactic(auto, using(crate::proofs::RackLaws::dealt_to))]
pub fn dealt_to(
    alloc: Global,
    rules: &Rules,
    steps: &[Step],
    place: usize,
) -> Result<Option<Fact>, AllocError>
    ensures { IfOk result (λ fact. IfSome fact (IsTrueOfRacks rules.now steps.now place)) }
{
    if place == 0 || place > steps.len() {
        return Ok(None);
    }
    match settle(alloc, rules, &steps[..place])? {
        Settling::Dealt(_) => Ok(Some(Fact::Deal(DealFact::DealtTo {
            line: steps[place - 1].line,
        }))),
        Settling::NoDeal { .. } | Settling::Unknown => Ok(None),
    }
}

// ---- no deal

/// The number of tiles that a step exchanges.
fn exchanged_by(act: &Act) -> usize
    ensures { result ≡ exchanged_by act.now }
{
    match act {
        Act::Turns { motion, .. } => exchanged_by_motion(motion),
        Act::TakesBack(_) | Act::Ends { .. } | Act::Rests => 0,
    }
}

/// The number of tiles that a turn exchanges.
fn exchanged_by_motion(motion: &Motion) -> usize
    ensures { result ≡ exchanged_by_motion motion.now }
{
    match motion {
        Motion::Throws(tiles) => tiles.total(),
        Motion::ThrowsUnknown(many) => *many,
        Motion::Keeps | Motion::Lays { .. } | Motion::Tries(_) => 0,
    }
}

/// Adds an exchange, if a step is one.
fn push_exchange(lines: &mut Vec<ExchangeLine>, step: &Step) -> Result<(), AllocError>
    ensures { OnOk result (lines.new.items ≡ lines.old.items ++ exchange_line step.now) }
{
    let tiles = exchanged_by(&step.act);
    if tiles == 0 {
        return Ok(());
    }
    lines.push(ExchangeLine {
        line: step.line,
        player: step.player,
        tiles,
    })?;
    Ok(())
}

/// The exchanges among some steps.
fn exchange_lines(alloc: Global, steps: &[Step]) -> Result<Vec<ExchangeLine>, AllocError>
    ensures { IfOk result (λ lines. lines.items ≡ exchange_lines steps.now) }
{
    let mut lines = Vec::new(alloc);
    for step in steps {
        push_exchange(&mut lines, step)?;
    }
    Ok(lines)
}

/// Whether a step at a place or before it shows too much by itself.
fn exceeds_bound(rules: &Rules, steps: &[Step], place: usize) -> bool
    requires { place < length steps.now }
    ensures { IsFalse result → first_bound rules.now (take (place + 1) steps.now) ≡ None }
{
    first_bound(rules, &steps[..place + 1]).is_some()
}

/// Which tiles and lines cannot be together, and the exchanges up to a step; none if no proof is found that no deal gives the racks up
/// to it, or if a step shows too much by itself.
///
/// It fails only if memory runs out.
///
/// The facts are true (`IsTrue`); that they are found is tested. The tiles and lines have no deal even if the lines show nothing else of racks. That
/// these are few is not promised.
pub fn no_deal(
    alloc: Global,
    rules: &Rules,
    steps: &[Step],
    place: usize,
) -> Result<Option<Fact>, AllocError>
    ensures { IfOk result (λ fact. IfSome fact (IsTrueOfRacks rules.now steps.now place)) }
{
    let Some(step) = steps.get(place) else {
        return Ok(None);
    };
    if exceeds_bound(rules, steps, place) {
        return Ok(None);
    }
    let Some(clash) = clash_at(alloc, rules, steps, place)? else {
        return Ok(None);
    };
    let mut exchanges = exchange_lines(alloc, steps.get(..place).unwrap_or(&[]))?;
    push_exchange(&mut exchanges, step)?;
    Ok(Some(Fact::Deal(DealFact::NoDeal {
        clash: clash.lines,
        exchanges,
    })))
}
