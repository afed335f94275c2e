//! A total that is not the right one, and penalties for time.
ghost use Rattle.std.specs.Prelude.{◌≡◌, ◌+ℤ◌, false, true, All, IfOk, IfSome, Some, None};
ghost use Rattle.std.specs.List.{list_any};
ghost use Rattle.game_turns.specs.Checks.{fault_in};
ghost use Rattle.game_turns.specs.Machines.{state_of};
ghost use Rattle.game_turns.specs.Seats.{side_of};
ghost use Rattle.game_turns.specs.declared.faults.RuleFault.TheVariants as fault;
ghost use Rattle.explain_facts.specs.Moments.{moment_of, IsRefusedFor};
ghost use Rattle.explain_facts.specs.Totals.{IsTimeOf, is_time_of};
ghost use Rattle.explain_facts.specs.Facts.{IsTrue};
ghost use Rattle.explain_facts.specs.FaultFacts.{is_fact_of, begin_with, says, IsTallied};

use crate::facts::{Fact, TotalFact};
use crate::scenes::{Scene, report, report_some};
use explain_clues::latest_with;
use gcg_read::{Event, EventKind, Seat, same_seat};
use std::alloc::{AllocError, Global};

/// The sum that makes a total.
#[tactic(auto, using(crate::proofs::Numbers::total_reported))]
fn wrong_total(scene: &Scene<'_>, right: i32) -> Fact
    requires fails { fault_in scene.now.rules.now scene.now.list.now (state_of scene.now.machine.now) scene.now.event.now ≡ Some (fault.WrongTotal right) }
    ensures reported { IsTrue (moment_of scene.now) result }
    ensures named { is_fact_of (fault.WrongTotal right) result ≡ true }
{
    Fact::Total(TotalFact::Wrong {
        player: scene.event.player,
        had: scene.machine.total(scene.event.player),
        score: scene.event.score.value(),
        right,
        written: scene.event.total.value(),
    })
}

/// The turn that a total leaves out, if it is right except for that one.
fn omitted(scene: &Scene<'_>, right: i32) -> Option<Fact>
    requires fails { fault_in scene.now.rules.now scene.now.list.now (state_of scene.now.machine.now) scene.now.event.now ≡ Some (fault.WrongTotal right) }
    ensures { IfSome result (IsTrue (moment_of scene.now)) }
{
    let score = right.checked_sub(scene.event.total.value())?;
    if scene.event.score.value() == score {
        return Some(Fact::Total(TotalFact::LeavesOutOwn));
    }
    let line = latest_with(scene.past, scene.event.player, score)?;
    Some(Fact::Total(TotalFact::LeavesOut { line, score }))
}

/// The sum that makes a total, and the turn that it leaves out, if it is right except for one.
#[tactic(auto, using(crate::proofs::Beginnings::begins, crate::proofs::Beginnings::goes_on))]
pub(crate) fn total_facts(
    alloc: Global,
    scene: &Scene<'_>,
    right: i32,
) -> Result<Vec<Fact>, AllocError>
    requires fails { fault_in scene.now.rules.now scene.now.list.now (state_of scene.now.machine.now) scene.now.event.now ≡ Some (fault.WrongTotal right) }
    ensures reported { IfOk result (λ facts. All (IsTrue (moment_of scene.now)) facts.items) }
    ensures first { IfOk result (λ facts. begin_with (fault.WrongTotal right) facts.items ≡ true) }
{
    let mut facts = Vec::new(alloc);
    report(&mut facts, scene, wrong_total(scene, right))?;
    report_some(&mut facts, scene, omitted(scene, right))?;
    Ok(facts)
}

/// Whether an event is a penalty for time of a player.
fn is_time_of(event: &Event, player: Seat) -> bool
    ensures { result ≡ is_time_of player event.now }
{
    matches!(event.kind, EventKind::Time) && same_seat(event.player, player)
}

/// The line of a player's time penalty among some events.
#[tactic(auto, using(crate::proofs::FaultFactLaws::time_kind, crate::proofs::FaultFactLaws::time_player))]
fn time_line(events: &[Event], player: Seat) -> Option<u32>
    ensures some { IfSome result (IsTimeOf events.now player) }
    ensures none { result ≡ None → list_any (is_time_of player) events.now ≡ false }
{
    for event in events {
        if is_time_of(event, player) {
            return Some(event.line);
        }
    }
    None
}

/// The line of the penalty for time that the player already has.
fn second_time(scene: &Scene<'_>) -> Option<Fact>
    requires { (side_of (state_of scene.now.machine.now).sides scene.now.event.now.player).timed ≡ true }
    ensures reported { IfSome result (IsTrue (moment_of scene.now)) }
    ensures named { IsTallied (moment_of scene.now) → says fault.BadTime result ≡ true }
{
    let player = scene.event.player;
    let line = time_line(scene.past, player)?;
    Some(Fact::Total(TotalFact::SecondTime { player, line }))
}

/// Which penalties for time are possible.
#[tactic(auto, using(crate::proofs::Because::is_time_of, crate::proofs::Because::no_step))]
pub(crate) fn bad_time(scene: &Scene<'_>) -> Option<Fact>
    requires fails { IsRefusedFor (moment_of scene.now) fault.BadTime }
    ensures reported { IfSome result (IsTrue (moment_of scene.now)) }
    ensures named { IsTallied (moment_of scene.now) → says fault.BadTime result ≡ true }
{
    if scene.machine.is_timed(scene.event.player) {
        return second_time(scene);
    }
    Some(Fact::Total(TotalFact::TimeStep {
        step: scene.rules.time_step as usize,
        written: scene.event.score.value(),
    }))
}
