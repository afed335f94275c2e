//! Taking one event with the numbers that the rules give.
ghost use Rattle.std.specs.Prelude.{◌≡◌, ℤ, Some, IfErr, OnOk, OnErr, slice_get};
ghost use Rattle.gcg_read.specs.Numerals.{IsPoints};
ghost use Rattle.game_turns.specs.declared.faults.RuleFault.TheVariants as fault;
ghost use Rattle.game_turns.specs.Answers.{Reports};
ghost use Rattle.game_turns.specs.Machines.{rules_of, state_of};
ghost use Rattle.game_turns.specs.Places.{fault_of_event};
ghost use Rattle.game_corrections.specs.Corrections.{right_score, right_total, IsRemaining, KeepPoints};
ghost use Rattle.game_corrections.specs.Mending.{IsMendedAt, IsRefusedAt, state_after};

use game_turns::{Machine, RuleFault};
use gcg_read::{Events, Points};
use lex_list::WordList;

/// The score that a fault says should have been written.
fn right_score(fault: &RuleFault) -> Option<i32>
    ensures { result ≡ right_score fault.now }
{
    match fault {
        RuleFault::WrongScore(right) => Some(*right),
        _ => None,
    }
}

/// The total that a fault says should have been written.
fn right_total(fault: &RuleFault) -> Option<i32>
    ensures { result ≡ right_total fault.now }
{
    match fault {
        RuleFault::WrongTotal(right) => Some(*right),
        _ => None,
    }
}

/// Takes the event at a place as it is written; nothing if there is no event.
///
/// # Errors
///
/// The first check that fails. A refused event leaves the machine as it was.
pub fn take(
    machine: &mut Machine,
    events: &Events,
    place: usize,
    list: &WordList,
) -> Result<(), RuleFault>
    ensures reported { Reports result (fault_of_event (rules_of machine.old) list.now (state_of machine.old) (slice_get events.now place)) }
    ensures state { OnOk result (state_of machine.new ≡ state_after (rules_of machine.old) (state_of machine.old) events.now place) }
    ensures rules { rules_of machine.new ≡ rules_of machine.old }
    ensures refused { OnErr result (machine.new ≡ machine.old) }
{
    let all = events.as_slice();
    let Some(event) = all.get(place) else {
        return Ok(());
    };
    machine.step(event, all.get(place + 1), list)?;
    Ok(())
}

/// Takes the event at a place, with the right total if its own is wrong. If it is refused, it keeps its own.
fn take_with_total(
    machine: &mut Machine,
    events: &mut Events,
    place: usize,
    list: &WordList,
) -> Result<(), RuleFault>
    ensures mended { IsMendedAt events.old events.new place }
    ensures points { KeepPoints events.old events.new }
    ensures reported { Reports result (fault_of_event (rules_of machine.old) list.now (state_of machine.old) (slice_get events.new place)) }
    ensures remaining { IfErr result (λ why. (right : ℤ) → right_total why ≡ Some right → IsPoints right → ⊥) }
    ensures same { OnErr result (events.new ≡ events.old) }
    ensures state { OnOk result (state_of machine.new ≡ state_after (rules_of machine.old) (state_of machine.old) events.new place) }
    ensures rules { rules_of machine.new ≡ rules_of machine.old }
{
    let fault = match take(machine, events, place, list) {
        Ok(()) => return Ok(()),
        Err(fault) => fault,
    };
    let Some(right) = right_total(&fault) else {
        return Err(fault);
    };
    let Some(total) = Points::new(right) else {
        return Err(fault);
    };
    events.set_total(place, total);
    take(machine, events, place, list)
}

/// Takes the event at a place with another score, which is the right one, and with the right total.
fn take_with_score(
    machine: &mut Machine,
    events: &mut Events,
    place: usize,
    list: &WordList,
    score: Points,
) -> Result<(), RuleFault>
    requires reported { fault_of_event (rules_of machine.old) list.now (state_of machine.old) (slice_get events.old place) ≡ Some (fault.WrongScore score) }
    requires fits { IsPoints score }
    ensures mended { IsMendedAt events.old events.new place }
    ensures points { KeepPoints events.old events.new }
    ensures reported { Reports result (fault_of_event (rules_of machine.old) list.now (state_of machine.old) (slice_get events.new place)) }
    ensures remaining { IfErr result IsRemaining }
    ensures refused { OnErr result (IsRefusedAt (rules_of machine.old) list.now (state_of machine.old) events.old events.new place) }
    ensures state { OnOk result (state_of machine.new ≡ state_after (rules_of machine.old) (state_of machine.old) events.new place) }
    ensures rules { rules_of machine.new ≡ rules_of machine.old }
{
    events.set_score(place, score);
    take_with_total(machine, events, place, list)
}

/// Takes the event at a place, with the score and the total that the rules give if its own are wrong. If it is refused, no other
/// number of it would be accepted; it then has its own total, and its own score if that is not the wrong number.
///
/// Numbers that a record can hold stay such numbers.
///
/// # Errors
///
/// The first check that fails with the numbers that the event then has.
pub fn mend(
    machine: &mut Machine,
    events: &mut Events,
    place: usize,
    list: &WordList,
) -> Result<(), RuleFault>
    ensures mended { IsMendedAt events.old events.new place }
    ensures points { KeepPoints events.old events.new }
    ensures reported { Reports result (fault_of_event (rules_of machine.old) list.now (state_of machine.old) (slice_get events.new place)) }
    ensures remaining { IfErr result IsRemaining }
    ensures refused { OnErr result (IsRefusedAt (rules_of machine.old) list.now (state_of machine.old) events.old events.new place) }
    ensures state { OnOk result (state_of machine.new ≡ state_after (rules_of machine.old) (state_of machine.old) events.new place) }
    ensures rules { rules_of machine.new ≡ rules_of machine.old }
{
    let fault = match take(machine, events, place, list) {
        Ok(()) => return Ok(()),
        Err(fault) => fault,
    };
    let Some(right) = right_score(&fault) else {
        return take_with_total(machine, events, place, list);
    };
    match Points::new(right) {
        Some(score) => take_with_score(machine, events, place, list, score),
        None => Err(fault),
    }
}
