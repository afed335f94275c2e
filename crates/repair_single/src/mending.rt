//! Taking one event with its right numbers; mostly its total is known in advance.
ghost use Rattle.std.specs.Prelude.{◌≡◌, IfErr, OnOk, slice_get};
ghost use Rattle.game_turns.specs.Answers.{Reports};
ghost use Rattle.game_turns.specs.Machines.{rules_of, state_of};
ghost use Rattle.game_turns.specs.Places.{fault_of_event};
ghost use Rattle.game_corrections.specs.Corrections.{IsRemaining};
ghost use Rattle.game_corrections.specs.Mending.{IsMendedAt, state_after};

use game_corrections::mend as mend_written;
use game_turns::{Machine, RuleFault};
use gcg_read::{Event, Events, Points};
use lex_list::WordList;

/// The total that an event has if its score is right.
fn total_after(machine: &Machine, event: &Event) -> Option<Points> {
    let had = machine.total(event.player);
    Points::new(had.wrapping_add(event.score.value()))
}

/// Gives an event the total that it has if its score is right. If the score is wrong, `mend` puts both right.
#[tactic(auto, using(game_corrections::proofs::Mends::unchanged))]
fn foresee_total(machine: &Machine, events: &mut Events, place: usize)
    ensures { IsMendedAt events.old events.new place }
{
    let Some(event) = events.as_slice().get(place) else {
        return;
    };
    let Some(total) = total_after(machine, event) else {
        return;
    };
    events.set_total(place, total);
}

/// Takes the event at a place, with the score and the total that the rules give if its own are wrong. An event of which only the total is
/// wrong is taken once, without being refused first.
///
/// # Errors
///
/// The first check that fails, whatever the numbers of the event are.
pub(crate) fn mend(
    machine: &mut Machine,
    events: &mut Events,
    place: usize,
    list: &WordList,
) -> Result<(), RuleFault>
    ensures mended { IsMendedAt events.old events.new place }
    ensures reported { Reports result (fault_of_event (rules_of machine.old) list.now (state_of machine.old) (slice_get events.new place)) }
    ensures remaining { IfErr result IsRemaining }
    ensures state { OnOk result (state_of machine.new ≡ state_after (rules_of machine.old) (state_of machine.old) events.new place) }
    ensures rules { rules_of machine.new ≡ rules_of machine.old }
{
    foresee_total(machine, events, place);
    mend_written(machine, events, place, list)
}
