//! Replays a record that passed, event by event.
ghost use Rattle.std.specs.Prelude.{◌≡◌, ◌+◌, ◌<◌, length};
ghost use Rattle.game_turns.specs.Machines.{rules_of, state_of};
ghost use Rattle.game_turns.specs.Tallies.{tally_at};

use crate::laws::law_of_tallies;
use crate::machine::Machine;
use crate::passed::Passed;
use crate::playing::event_after;

impl Passed<'_> {
    ghost use Rattle.game_turns.specs.Passing.{rules_in, record_in, list_in};

    /// Takes the event at a place of the record, counted from 0, with a machine that took those before it.
    pub fn take_event(&self, machine: &mut Machine, place: usize)
        requires place { place < length (record_in self.now).events }
        requires rules { rules_of machine.old ≡ rules_in self.now }
        requires state { state_of machine.old ≡ tally_at (rules_in self.now) (record_in self.now).events place }
        ensures rules { rules_of machine.new ≡ rules_in self.now }
        ensures state { state_of machine.new ≡ tally_at (rules_in self.now) (record_in self.now).events (place + 1) }
    {
        law_of_tallies();
        let events = self.record.events.as_slice();
        let Ok(_) = machine.step(&events[place], event_after(events, place), self.list) else {
            unreachable!()
        };
    }
}
