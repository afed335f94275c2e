//! What may be wrong at a place of a record.
ghost use Rattle.std.specs.Prelude.{◌≡◌, ◌≤◌, ◌++◌, length, slice_get, IfOk, OnOk};
ghost use Rattle.game_turns.specs.Machines.{state_of};
ghost use Rattle.repair_slips.specs.Changes.{slips_of_event, slips_by};

use crate::lines::push_event;
use crate::missing::push_missing;
use game_turns::Machine;
use gcg_read::Event;
use ref_tiles::Rules;
use repair_changes::Slip;
use std::alloc::{AllocError, Global};

/// Adds all that may be wrong with the event at a place, if there is one.
#[tactic(auto, using(crate::proofs::Places::of_event, crate::proofs::Places::of_none))]
fn push_event_at(
    slips: &mut Vec<Slip>,
    rules: &Rules,
    game: &Machine,
    events: &[Event],
    place: usize,
) -> Result<(), AllocError>
    ensures { OnOk result (slips.new.items ≡ slips.old.items
        ++ slips_of_event rules.now (state_of game.now) events.now place (slice_get events.now place)) }
{
    if place < events.len() {
        push_event(slips, rules, game, events, place, &events[place])
    } else {
        Ok(())
    }
}

/// All that may be wrong at a place of a record, counted from 0, by the game before it: with the event there, if there is one, and
/// with what is missing before it.
///
/// It fails only if memory runs out.
#[tactic(auto, unfolding(crate::specs::Changes::slips_by))]
pub fn slips_at(
    alloc: Global,
    rules: &Rules,
    game: &Machine,
    events: &[Event],
    place: usize,
) -> Result<Vec<Slip>, AllocError>
    requires { place ≤ length events.now }
    ensures { IfOk result (λ slips. slips.items ≡ slips_by rules.now (state_of game.now) events.now place) }
{
    let mut slips = Vec::new(alloc);
    push_event_at(&mut slips, rules, game, events, place)?;
    push_missing(&mut slips, rules, game, events, place)?;
    Ok(slips)
}
