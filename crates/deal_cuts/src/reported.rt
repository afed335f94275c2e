//! What a step says about the tiles of a rack.
ghost use Rattle.std.specs.Prelude.{◌≡◌};
ghost use Rattle.deal_steps.specs.Steps.{swaps};
ghost use Rattle.deal_cuts.specs.Flowing.{known_at, leaving, coming, unknown_at};

use deal_steps::{Act, Motion, Step, greater, used_by};
use gcg_read::{Seat, same_seat};
use ref_tiles::Counts;

/// What is known to be on a rack at a step.
pub fn known_at(seat: Seat, step: &Step) -> Counts
    ensures { result ≡ known_at seat step.now }
{
    match &step.act {
        Act::Turns { shown, motion } if same_seat(step.player, seat) => {
            greater(shown, &used_by(motion))
        }
        Act::Ends { holder, tiles } if same_seat(*holder, seat) => *tiles,
        Act::Turns { .. } | Act::TakesBack(_) | Act::Ends { .. } | Act::Rests => Counts::new(),
    }
}

/// The known tiles that leave a rack at a step.
pub fn leaving(seat: Seat, step: &Step) -> Counts
    ensures { result ≡ leaving seat step.now }
{
    match &step.act {
        Act::Turns { motion, .. } if same_seat(step.player, seat) => used_by(motion),
        Act::Turns { .. } | Act::TakesBack(_) | Act::Ends { .. } | Act::Rests => Counts::new(),
    }
}

/// The tiles that come back from the board to a rack at a step.
pub fn coming(seat: Seat, step: &Step) -> Counts
    ensures { result ≡ coming seat step.now }
{
    match &step.act {
        Act::TakesBack(used) if same_seat(step.player, seat) => *used,
        Act::Turns { .. } | Act::TakesBack(_) | Act::Ends { .. } | Act::Rests => Counts::new(),
    }
}

/// The number of unknown tiles that are thrown off a rack at a step.
pub fn unknown_at(seat: Seat, step: &Step) -> usize
    ensures { result ≡ unknown_at seat step.now }
{
    match &step.act {
        Act::Turns {
            motion: Motion::ThrowsUnknown(number),
            ..
        } if same_seat(step.player, seat) => *number,
        Act::Turns { .. } | Act::TakesBack(_) | Act::Ends { .. } | Act::Rests => 0,
    }
}

/// Whether the tiles that leave a rack at a step go to the bag.
pub fn throws(act: &Act) -> bool
    ensures { result ≡ swaps act.now }
{
    match act {
        Act::Turns {
            motion: Motion::Throws(_) | Motion::ThrowsUnknown(_),
            ..
        } => true,
        Act::Turns { .. } | Act::TakesBack(_) | Act::Ends { .. } | Act::Rests => false,
    }
}
