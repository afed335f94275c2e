//! What may be wrong with the position of a play.
ghost use Rattle.std.specs.Prelude.{◌≡◌, ◌<◌, ◌++◌, OnOk};
ghost use Rattle.repair_slips.specs.Positions.{are_beside, elsewhere, on_line, interchanged, position_slips};

use crate::adding::add;
use ref_board::{Dir, SIDE, Square};
use repair_changes::{PositionSlip, Slip};
use std::alloc::AllocError;

/// Whether two places are next to each other.
fn are_beside(place: usize, other: usize) -> bool
    requires place { place < 15 }
    requires other { other < 15 }
    ensures { result ≡ are_beside place other }
{
    place + 1 == other || other + 1 == place
}

/// Adds the square at a place of the line of a direction on which a play begins, if that is a different one.
#[tactic(auto, unfolding(crate::specs::Positions::elsewhere))]
fn push_elsewhere(
    slips: &mut Vec<Slip>,
    dir: Dir,
    at: Square,
    place: usize,
) -> Result<(), AllocError>
    requires { place < 15 }
    ensures { OnOk result (slips.new.items ≡ slips.old.items ++ elsewhere dir at place) }
{
    let own = at.place(dir);
    if place == own {
        return Ok(());
    }
    let right = Square::on_line(dir, at.line(dir), place);
    if are_beside(place, own) {
        add(slips, Slip::Position(PositionSlip::OneOff(right)))
    } else {
        add(slips, Slip::Position(PositionSlip::Further(right)))
    }
}

/// Adds all other squares of the line of a direction on which a play begins.
#[tactic(auto, unfolding(crate::specs::Positions::on_line))]
fn push_on_line(slips: &mut Vec<Slip>, dir: Dir, at: Square) -> Result<(), AllocError>
    ensures { OnOk result (slips.new.items ≡ slips.old.items ++ on_line dir at) }
{
    for place in 0..SIDE {
        push_elsewhere(slips, dir, at, place)?;
    }
    Ok(())
}

/// Adds row and column interchanged, if they are different numbers.
#[tactic(auto, unfolding(crate::specs::Positions::interchanged))]
fn push_interchanged(slips: &mut Vec<Slip>, at: Square) -> Result<(), AllocError>
    ensures { OnOk result (slips.new.items ≡ slips.old.items ++ interchanged at) }
{
    if at.row() == at.column() {
        return Ok(());
    }
    add(slips, Slip::Position(PositionSlip::Interchanged))
}

/// Adds all that may be wrong with the position of a play that begins on a square.
#[tactic(auto, unfolding(crate::specs::Positions::position_slips))]
pub(crate) fn push_positions(slips: &mut Vec<Slip>, at: Square) -> Result<(), AllocError>
    ensures { OnOk result (slips.new.items ≡ slips.old.items ++ position_slips at) }
{
    add(slips, Slip::Position(PositionSlip::OtherDirection))?;
    push_on_line(slips, Dir::Across, at)?;
    push_on_line(slips, Dir::Down, at)?;
    push_interchanged(slips, at)
}
