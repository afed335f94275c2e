//! What is wrong with an event by the rules.
ghost use Rattle.std.specs.Prelude.{◌≡◌, true, All, IfOk, IfSome, Some};
ghost use Rattle.game_turns.specs.Checks.{fault_in};
ghost use Rattle.game_turns.specs.Machines.{state_of};
ghost use Rattle.game_turns.specs.declared.faults.RuleFault.TheVariants as rule_fault;
ghost use Rattle.explain_facts.specs.Moments.{moment_of, IsRefusedFor};
ghost use Rattle.explain_facts.specs.Facts.{IsTrue};
ghost use Rattle.explain_facts.specs.FaultFacts.{begin_with, says, IsTallied};

use crate::challenges::{nothing_to_withdraw, phony, valid, wrong_bonus};
use crate::facts::Fact;
use crate::orders::order_fact;
use crate::play_faults::play_fault_facts;
use crate::scenes::{Scene, listed, report_some};
use crate::scores::{elsewhere, score_facts};
use crate::tiles::{exchange_refused, exchange_size, last_rack_size, too_many_used};
use crate::totals::{bad_time, total_facts};
use crate::turns::{game_over, not_over, not_your_turn};
use game_turns::RuleFault;
use gcg_read::EventKind;
use ref_play::PlayFault;
use std::alloc::{AllocError, Global};

/// What is wrong with a play, and where the same text has the written score.
fn play_facts(alloc: Global, scene: &Scene<'_>, fault: PlayFault) -> Result<Vec<Fact>, AllocError>
    requires fails { IsRefusedFor (moment_of scene.now) (rule_fault.Play fault) }
    ensures reported { IfOk result (λ facts. All (IsTrue (moment_of scene.now)) facts.items) }
    ensures first { IfOk result (λ facts. begin_with (rule_fault.Play fault) facts.items ≡ true) }
{
    let EventKind::Play { at, dir, word } = &scene.event.kind else {
        return Ok(Vec::new(alloc));
    };
    let place = elsewhere(alloc, scene, *at, *dir, word)?;
    let mut facts = play_fault_facts(alloc, scene, *at, *dir, word.as_slice(), fault)?;
    report_some(&mut facts, scene, place)?;
    Ok(facts)
}

/// Whose turn it is, and what may be wrong with the order of the lines.
fn turn_facts(alloc: Global, scene: &Scene<'_>) -> Result<Vec<Fact>, AllocError>
    requires fails { IsRefusedFor (moment_of scene.now) rule_fault.NotYourTurn }
    ensures reported { IfOk result (λ facts. All (IsTrue (moment_of scene.now)) facts.items) }
    ensures first { IfOk result (λ facts. begin_with rule_fault.NotYourTurn facts.items ≡ true) }
{
    let order = order_fact(alloc, scene)?;
    let mut facts = listed(alloc, scene, not_your_turn(scene))?;
    report_some(&mut facts, scene, order)?;
    Ok(facts)
}

/// The list of a fact that says a fault, if the game before the event is what the events before it add up to.
fn only(
    alloc: Global,
    scene: &Scene<'_>,
    why: &RuleFault,
    fact: Option<Fact>,
) -> Result<Vec<Fact>, AllocError>
    requires reported { IfSome fact (IsTrue (moment_of scene.now)) }
    requires named { IsTallied (moment_of scene.now) → says why.now fact ≡ true }
    ensures reported { IfOk result (λ facts. All (IsTrue (moment_of scene.now)) facts.items) }
    ensures first { IfOk result (λ facts. IsTallied (moment_of scene.now) → begin_with why.now facts.items ≡ true) }
{
    let _ = why;
    let facts = listed(alloc, scene, fact)?;
    Ok(facts)
}

/// What is wrong with an event that the rules refuse. The first fact says the fault, if the game before the event is what the events
/// before it add up to.
///
/// Each fact is true (`IsTrue`). That a fact is found is tested.
pub fn rule_fault_facts(
    alloc: Global,
    scene: &Scene<'_>,
    fault: &RuleFault,
) -> Result<Vec<Fact>, AllocError>
    requires fails { fault_in scene.now.rules.now scene.now.list.now (state_of scene.now.machine.now) scene.now.event.now ≡ Some fault.now }
    ensures reported { IfOk result (λ facts. All (IsTrue (moment_of scene.now)) facts.items) }
    ensures first { IfOk result (λ facts. IsTallied (moment_of scene.now) → begin_with fault.now facts.items ≡ true) }
{
    match fault {
        RuleFault::NotYourTurn => turn_facts(alloc, scene),
        RuleFault::Play(why) => play_facts(alloc, scene, *why),
        RuleFault::WrongScore(right) => score_facts(alloc, scene, *right),
        RuleFault::WrongTotal(right) => total_facts(alloc, scene, *right),
        RuleFault::NothingToWithdraw => only(alloc, scene, fault, nothing_to_withdraw(scene)),
        RuleFault::WithdrawnValid => only(alloc, scene, fault, valid(alloc, scene)?),
        RuleFault::BonusOnPhony => only(alloc, scene, fault, phony(alloc, scene)?),
        RuleFault::BadBonus => only(alloc, scene, fault, wrong_bonus(alloc, scene)?),
        RuleFault::ExchangeRefused => only(alloc, scene, fault, exchange_refused(scene)),
        RuleFault::ExchangeSize => only(alloc, scene, fault, exchange_size(scene)),
        RuleFault::GameOver => only(alloc, scene, fault, game_over(scene)),
        RuleFault::NotOver => only(alloc, scene, fault, not_over(scene)),
        RuleFault::LastRackSize => only(alloc, scene, fault, last_rack_size(scene)),
        RuleFault::BadTime => only(alloc, scene, fault, bad_time(scene)),
        RuleFault::TooManyUsed => only(alloc, scene, fault, too_many_used(scene)),
    }
}
