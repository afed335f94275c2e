//! The deal of a game, step by step.
ghost use Rattle.std.specs.Prelude.{◌≡◌, true, ◌∷◌, [], ◌++◌, IfOk, IsSomeAnd};
ghost use Rattle.deal_steps.specs.Fitting.{Fits};
ghost use Rattle.deal_steps.specs.Bounds.{first_bound};
ghost use Rattle.deal_steps.specs.Runs.{IsRun, HasKindsBy, HasKinds, HaveKinds};
ghost use Rattle.deal_completion.specs.Completion.{turn_throws, throws, turned, acted, is_within, is_met, held_at, start, dealt};
ghost use Rattle.deal_completion.specs.Plain.{IsPlain};
ghost use Rattle.deal_completion.specs.Taking.{MayThrow, MayMove};

use crate::drawing::{chosen, draw, exchange};
use crate::hands::Hands;
use deal_steps::{Act, Deal, Held, Motion, Racks, Step, greater, opener, used_by};
use gcg_read::Seat;
use ref_tiles::{Counts, Rules};
use std::alloc::{AllocError, Global};

/// The tiles that a turn throws.
fn turn_throws(
    alloc: Global,
    seat: Seat,
    motion: &Motion,
    steps: &[Step],
    racks: &Racks,
) -> Result<Counts, AllocError>
    ensures { IfOk result (λ thrown. thrown ≡ turn_throws seat motion.now steps.now racks.now) }
{
    match motion {
        Motion::Throws(tiles) => Ok(*tiles),
        Motion::ThrowsUnknown(number) => chosen(alloc, seat, *number, steps, racks.of(seat)),
        Motion::Keeps | Motion::Lays { .. } | Motion::Tries(_) => Ok(Counts::new()),
    }
}

/// The tiles that a step throws.
fn throws(alloc: Global, step: &Step, steps: &[Step], racks: &Racks) -> Result<Counts, AllocError>
    ensures { IfOk result (λ thrown. thrown ≡ throws step.now.player step.now.act steps.now racks.now) }
{
    match &step.act {
        Act::Turns { motion, .. } => turn_throws(alloc, step.player, motion, steps, racks),
        Act::TakesBack(_) | Act::Ends { .. } | Act::Rests => Ok(Counts::new()),
    }
}

/// What a turn does to the hands.
#[tactic(auto, using(crate::proofs::DealLaws::off_room))]
fn turned(
    alloc: Global,
    seat: Seat,
    motion: &Motion,
    thrown: &Counts,
    steps: &[Step],
    hands: &Hands,
) -> Result<Hands, AllocError>
    requires { MayThrow seat thrown.now hands.now }
    ensures { IfOk result (λ after. after ≡ turned seat motion.now thrown.now steps.now hands.now) }
{
    match motion {
        Motion::Keeps => Ok(*hands),
        Motion::Lays { used, drawn } => {
            let off = hands.without_tiles(seat, used);
            draw(alloc, seat, *drawn, steps, &off)
        }
        Motion::Tries(used) => Ok(hands.without_tiles(seat, used)),
        Motion::Throws(_) | Motion::ThrowsUnknown(_) => exchange(alloc, seat, thrown, steps, hands),
    }
}

/// What a step does to the hands.
fn acted(
    alloc: Global,
    step: &Step,
    thrown: &Counts,
    steps: &[Step],
    hands: &Hands,
) -> Result<Hands, AllocError>
    requires { MayMove step.now.player step.now.act thrown.now hands.now }
    ensures { IfOk result (λ after. after ≡ acted step.now.player step.now.act thrown.now steps.now hands.now) }
{
    match &step.act {
        Act::Turns { motion, .. } => turned(alloc, step.player, motion, thrown, steps, hands),
        Act::TakesBack(used) => Ok(hands.with_tiles(step.player, used)),
        Act::Ends { .. } | Act::Rests => Ok(*hands),
    }
}

/// Whether the first tiles are among the second.
#[tactic(auto, using(crate::proofs::ReadySteps::fits_within))]
fn is_within(tiles: &Counts, others: &Counts) -> bool
    ensures { result ≡ is_within tiles.now others.now }
{
    tiles.law_of_numbers();
    tiles.fits(others)
}

/// Whether a rack has what a moment shows, and no more if it is a last rack.
fn is_met(step: &Step, racks: &Racks) -> bool
    ensures { result ≡ is_met step.now.player step.now.act racks.now }
{
    match &step.act {
        Act::Turns { shown, motion } => {
            is_within(&greater(shown, &used_by(motion)), racks.of(step.player))
        }
        Act::Ends { holder, tiles } => {
            let rack = racks.of(*holder);
            is_within(tiles, rack) && is_within(rack, tiles)
        }
        Act::TakesBack(_) | Act::Rests => true,
    }
}

/// The hands once both players have drawn their first tiles.
#[tactic(auto, using(crate::proofs::DealLaws::first_room, crate::proofs::DealLaws::second_room), unfolding(crate::specs::Completion::start))]
fn start(alloc: Global, rules: &Rules, steps: &[Step]) -> Result<Hands, AllocError>
    ensures { IfOk result (λ hands. hands ≡ start rules.now steps.now) }
{
    rules.counts.law_of_numbers();
    let first = opener(steps);
    let hands = draw(alloc, first, 7, steps, &Hands::new(rules))?;
    draw(alloc, first.other(), 7, steps, &hands)
}

/// Each list of a turn has a number for each kind.
fn turn_has_kinds(motion: &Motion)
    ensures { HasKindsBy motion.now }
{
    match motion {
        Motion::Lays { used, .. } => used.law_of_numbers(),
        Motion::Tries(used) => used.law_of_numbers(),
        Motion::Throws(tiles) => tiles.law_of_numbers(),
        Motion::Keeps | Motion::ThrowsUnknown(_) => {}
    }
}

/// Each list of a step has a number for each kind.
fn step_has_kinds(step: &Step)
    ensures { HasKinds step.now.act }
{
    match &step.act {
        Act::Turns { shown, motion } => {
            shown.law_of_numbers();
            turn_has_kinds(motion);
        }
        Act::TakesBack(used) => used.law_of_numbers(),
        Act::Ends { tiles, .. } => tiles.law_of_numbers(),
        Act::Rests => {}
    }
}

/// Makes a step of a deal. If its moment is not met, the answer is no.
fn deal_step(
    alloc: Global,
    step: &Step,
    rest: &[Step],
    hands: &mut Hands,
    held: &mut Vec<Held>,
) -> Result<bool, AllocError>
    requires { is_met step.now.player step.now.act hands.old.racks ≡ true
        → MayMove step.now.player step.now.act (throws step.now.player step.now.act rest.now hands.old.racks) hands.old }
    ensures met { IfOk result (λ met. met ≡ is_met step.now.player step.now.act hands.old.racks) }
    ensures hands { IfOk result (λ met. met ≡ true → hands.new
        ≡ acted step.now.player step.now.act (throws step.now.player step.now.act rest.now hands.old.racks) rest.now hands.old) }
    ensures held { IfOk result (λ met. met ≡ true
        → held.new.items ≡ held.old.items ++ held_at step.now rest.now hands.old.racks ∷ []) }
{
    if !is_met(step, &hands.racks) {
        return Ok(false);
    }
    let racks = hands.racks;
    let thrown = throws(alloc, step, rest, &racks)?;
    *hands = acted(alloc, step, &thrown, rest, hands)?;
    held.push(Held { racks, thrown })?;
    Ok(true)
}

/// Each list of each step has a number for each kind.
fn steps_have_kinds(steps: &[Step])
    ensures { HaveKinds steps.now }
{
    for step in steps {
        step_has_kinds(step);
    }
}

/// The deal that the rule gives.
fn deal_of(alloc: Global, rules: &Rules, steps: &[Step]) -> Result<Option<Deal>, AllocError>
    requires { IsRun rules.now steps.now }
    ensures { IfOk result (λ deal. deal ≡ dealt rules.now steps.now) }
{
    rules.counts.law_of_numbers();
    let mut hands = start(alloc, rules, steps)?;
    let mut held = Vec::new(alloc);
    for (place, step) in steps.iter().enumerate() {
        let (_, rest) = steps.split_at(place + 1);
        if !deal_step(alloc, step, rest, &mut hands, &mut held)? {
            return Ok(None);
        }
    }
    Ok(Some(Deal::of(held)))
}

/// The deal with which the steps of a game are tried: by the fixed rule, which gives each player what the lines will ask for. If a
/// line asks for a tile that is then not on the rack, there is no deal. It fails only if memory runs out.
///
/// If no step is an exchange and no bound is exceeded, there is a deal, and it fits.
///
/// It requires that the steps are those of a whole game.
#[tactic(auto, using(crate::proofs::PlainDeals::plain_answer))]
pub fn complete_steps(
    alloc: Global,
    rules: &Rules,
    steps: &[Step],
) -> Result<Option<Deal>, AllocError>
    requires { IsRun rules.now steps.now }
    ensures dealt { IfOk result (λ deal. deal ≡ dealt rules.now steps.now) }
    ensures plain { IfOk result (λ deal. IsPlain steps.now → first_bound rules.now steps.now ≡ None
        → IsSomeAnd deal (Fits rules.now steps.now)) }
{
    steps_have_kinds(steps);
    rules.counts.law_of_numbers();
    deal_of(alloc, rules, steps)
}
