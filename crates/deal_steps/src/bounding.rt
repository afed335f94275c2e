//! The first bound that the steps of a game exceed, and what they show about the racks.
ghost use Rattle.std.specs.Prelude.{◌≡◌, ◌⊎◌, ◌≤◌, Some, None, IfOk, OnOk, IfErr, IfSome, IsSome, length, take, reverse};
ghost use Rattle.deal_steps.specs.Bounds.{first_bound};
ghost use Rattle.deal_steps.specs.Knowing.{IsKnown, IsShownAt};

use crate::faults::DealBound;
use crate::known::Known;
use crate::steps::Step;
use ref_tiles::Rules;

/// What is known about the racks after the steps of a game, or the first bound that they exceed.
fn known_after(rules: &Rules, steps: &[Step]) -> Result<Known, DealBound>
    ensures fault { IfErr result (λ fault. first_bound rules.now steps.now ≡ Some fault) }
    ensures none { OnOk result (first_bound rules.now steps.now ≡ None) }
    ensures known { IfOk result (IsKnown (reverse steps.now)) }
{
    let mut known = Known::new();
    for step in steps {
        if let Some(fault) = known.take(rules, step) {
            return Err(fault);
        }
    }
    Ok(known)
}

/// The first bound that the steps of a game exceed.
///
/// A player's moments are the turns and the last rack. At a moment a rack is too big if what the moments so far show needs more
/// tiles than came to it, and a kind is short if the players together have shown more of it than the game has. Both checks are
/// necessary: if racks fit, neither fails ([`law_of_fitting`](crate::law_of_fitting)).
pub fn first_bound(rules: &Rules, steps: &[Step]) -> Option<DealBound>
    ensures { result ≡ first_bound rules.now steps.now }
{
    known_after(rules, steps).err()
}

/// What the steps of a game show about the racks at one of them, by its place from 0: what each player must have on the rack, and
/// the tiles of the plays that stand. None if an earlier step exceeds a bound, or after the last step.
#[tactic(auto, using(crate::proofs::KnownLaws::shown_taken))]
pub fn shown_at(rules: &Rules, steps: &[Step], place: usize) -> Option<Known>
    ensures shown { IfSome result (IsShownAt steps.now place) }
    ensures bounded { IsSome result → first_bound rules.now (take place steps.now) ≡ None }
    ensures none { result ≡ None → (length steps.now ≤ place) ⊎ IsSome (first_bound rules.now (take place steps.now)) }
{
    if place >= steps.len() {
        return None;
    }
    let Ok(mut known) = known_after(rules, &steps[..place]) else {
        return None;
    };
    known.show(&steps[place]);
    Some(known)
}
