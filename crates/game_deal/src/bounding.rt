//! The first bound that a record exceeds.
ghost use Rattle.std.specs.Prelude.{◌≡◌, IfOk, OnOk, IfErr};
ghost use Rattle.game_deal.specs.Bounded.{IsBounded};
ghost use Rattle.game_deal.specs.Faulty.{IsFaultOf};
ghost use Rattle.game_deal.specs.Needing.{passed_of};

use crate::faults::{DealFault, exceeds};
use crate::needs::Needs;
use crate::steps::Steps;
use deal_steps::first_bound;
use game_turns::Passed;
use std::alloc::Global;

/// What the lines of a record that passed require of the racks, if no bound is exceeded.
///
/// # Errors
///
/// The first bound that a line exceeds, in the order of the lines: a player has shown more tiles than came to the rack, or both
/// players together have shown more tiles of a kind than the game has. Each such refusal is right: no deal fits such a record
/// ([`law_of_bounds`](crate::law_of_bounds)). `NoMemory` if memory ran out.
pub fn bounds<'a>(alloc: Global, passed: &'a Passed<'a>) -> Result<Needs<'a>, DealFault>
    ensures needs { IfOk result (λ needs. passed_of needs ≡ passed.now) }
    ensures bounded { OnOk result (IsBounded passed.now) }
    ensures refused { IfErr result (IsFaultOf passed.now) }
{
    let Ok(steps) = Steps::of(alloc, passed) else {
        return Err(DealFault::NoMemory);
    };
    match first_bound(passed.rules(), steps.as_slice()) {
        None => Ok(Needs { steps }),
        Some(bound) => Err(exceeds(bound)),
    }
}
