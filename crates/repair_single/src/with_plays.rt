//! The list of changes at a place, with plays that were added to it.
ghost use Rattle.std.specs.Prelude.{◌≡◌, ◌≤◌, ◌++◌, ◌∷◌, [], map, length, IfOk, OnOk};
ghost use Rattle.game_turns.specs.Machines.{state_of};
ghost use Rattle.repair_slips.specs.Changes.{slips_by, change_at};
ghost use Rattle.repair_single.specs.Listing.{those_at};

use game_turns::Machine;
use gcg_read::Event;
use ref_tiles::Rules;
use repair_changes::{Change, Slip, copy_slip};
use repair_slips::slips_at;
use std::alloc::{AllocError, Global};

/// Adds a copy of a change to those at a place, if its place is this one.
fn push_play(slips: &mut Vec<Slip>, play: &Change, place: usize) -> Result<(), AllocError>
    ensures { OnOk result (map (change_at place) slips.new.items ≡ map (change_at place) slips.old.items ++ those_at (play.now ∷ []) place) }
{
    if play.place != place {
        return Ok(());
    }
    slips.push(copy_slip(&play.slip))?;
    Ok(())
}

/// Adds copies of the changes at a place.
fn push_plays(slips: &mut Vec<Slip>, plays: &[Change], place: usize) -> Result<(), AllocError>
    ensures { OnOk result (map (change_at place) slips.new.items ≡ map (change_at place) slips.old.items ++ those_at plays.now place) }
{
    for play in plays {
        push_play(slips, play, place)?;
    }
    Ok(())
}

/// All that may be wrong at a place of a record, by the game before it, and then the plays that were added there.
///
/// It fails only if memory runs out.
pub(crate) fn slips_with(
    alloc: Global,
    rules: &Rules,
    game: &Machine,
    events: &[Event],
    plays: &[Change],
    place: usize,
) -> Result<Vec<Slip>, AllocError>
    requires { place ≤ length events.now }
    ensures { IfOk result (λ slips. map (change_at place) slips.items
        ≡ map (change_at place) (slips_by rules.now (state_of game.now) events.now place) ++ those_at plays.now place) }
{
    let mut slips = slips_at(alloc, rules, game, events, place)?;
    push_plays(&mut slips, plays, place)?;
    Ok(slips)
}
