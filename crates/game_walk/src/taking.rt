//! Taking one event with its right numbers.
ghost use Rattle.std.specs.Prelude.{◌≡◌, ◌<◌, length, slice_get, Some, None};
ghost use Rattle.game_turns.specs.Machines.{rules_of, state_of};
ghost use Rattle.game_turns.specs.Places.{fault_of_event};
ghost use Rattle.game_corrections.specs.Corrections.{KeepPoints};
ghost use Rattle.game_corrections.specs.Mending.{IsMendedAt, state_after};
ghost use Rattle.game_walk.specs.Taking.{LeavesIt};

use game_corrections::{mend, take};
use game_turns::{Machine, RuleFault};
use gcg_read::Events;
use lex_list::WordList;

/// The outcome of an event.
#[derive(Clone, Copy)]
pub struct Taken {
    /// Why it is refused as it is written.
    pub as_written: Option<RuleFault>,
    /// Why it is refused with any numbers that a record can write.
    pub remaining: Option<RuleFault>,
}

/// Takes the event at a place, with the numbers that the rules give if its own are wrong.
pub fn take_right(
    machine: &mut Machine,
    events: &mut Events,
    place: usize,
    list: &WordList,
) -> Taken
    ensures mended { IsMendedAt events.old events.new place }
    ensures points { KeepPoints events.old events.new }
    ensures as_written { result.as_written ≡ fault_of_event (rules_of machine.old) list.now (state_of machine.old) (slice_get events.old place) }
    ensures same { result.as_written ≡ None → events.new ≡ events.old }
    ensures reported { result.remaining ≡ fault_of_event (rules_of machine.old) list.now (state_of machine.old) (slice_get events.new place) }
    ensures remaining { LeavesIt (rules_of machine.old) list.now (state_of machine.old) events.old events.new place result.remaining }
    ensures state { result.remaining ≡ None → state_of machine.new ≡ state_after (rules_of machine.old) (state_of machine.old) events.new place }
    ensures rules { rules_of machine.new ≡ rules_of machine.old }
{
    let Err(fault) = take(machine, events, place, list) else {
        return Taken {
            as_written: None,
            remaining: None,
        };
    };
    Taken {
        as_written: Some(fault),
        remaining: mend(machine, events, place, list).err(),
    }
}
