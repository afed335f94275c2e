//! A walk over the events of a record that passed, step by step.
ghost use Rattle.std.specs.Prelude.{◌≡◌, ◌+◌, ◌<◌, length, slice_get, Some};
ghost use Rattle.game_turns.specs.Passing.{rules_in, record_in};
ghost use Rattle.game_deal.specs.Recorded.{steps_of};
ghost use Rattle.game_deal.specs.Walking.{IsAtPlace};

use crate::recording::next_step;
use deal_steps::Step;
use game_turns::{Machine, Passed, withdraws};

/// The step of the event at a place of a record that passed, counted from 0, from a machine that took those before it.
fn step_at(passed: &Passed<'_>, machine: &Machine, place: usize) -> Step
    requires place { place < length (record_in passed.now).events }
    requires before { IsAtPlace passed.now place machine.now }
    ensures { slice_get (steps_of (rules_in passed.now) (record_in passed.now).events) place ≡ Some result }
{
    let events = passed.record().events.as_slice();
    next_step(machine, &events[place], withdraws(events.get(place + 1)))
}

/// A machine that has not taken an event yet.
pub fn starting(passed: &Passed<'_>) -> Machine
    ensures { IsAtPlace passed.now 0 result }
{
    Machine::new(passed.rules())
}

/// The step of the event at a place; the machine takes the event.
pub fn take_step(passed: &Passed<'_>, machine: &mut Machine, place: usize) -> Step
    requires place { place < length (record_in passed.now).events }
    requires before { IsAtPlace passed.now place machine.old }
    ensures following { IsAtPlace passed.now (place + 1) machine.new }
    ensures step { slice_get (steps_of (rules_in passed.now) (record_in passed.now).events) place ≡ Some result }
{
    let step = step_at(passed, machine, place);
    passed.take_event(machine, place);
    step
}
