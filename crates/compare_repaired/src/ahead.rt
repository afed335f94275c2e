//! Whether a repair is ahead of all others.
ghost use Rattle.std.specs.Prelude.{◌≡◌, ◌↔◌, [], All, IsTrue};
ghost use Rattle.repair_single.specs.Costs.{rank_of};
ghost use Rattle.compare_repaired.specs.Repaired.{IsAfter, AreAfter, IsSettled};

use crate::repaired::RepairedChoice;
use crate::same::same_game;
use repair_single::Repair;

/// What a repair costs.
pub(crate) fn cost_of(repair: &Repair) -> u128
    ensures { result ≡ (rank_of repair.now).cost }
{
    repair.remains.cost(&repair.listed.change.slip)
}

/// Whether another repair costs more, or makes a record of the same game.
fn is_after(best: &Repair, other: &Repair) -> bool
    ensures { IsTrue result ↔ IsAfter best.now other.now }
{
    cost_of(best) < cost_of(other) || same_game(best.right.as_slice(), other.right.as_slice())
}

/// Whether each of some repairs costs more, or makes a record of the same game.
fn are_after(best: &Repair, reported: &[Repair]) -> bool
    ensures { IsTrue result ↔ All (IsAfter best.now) reported.now }
{
    for other in reported {
        if !is_after(best, other) {
            return false;
        }
    }
    true
}

/// Whether each repair of some choices costs more, or makes a record of the same game.
pub(crate) fn is_ahead(best: &Repair, tried: &[RepairedChoice]) -> bool
    ensures { IsTrue result ↔ All (AreAfter best.now) tried.now }
{
    for choice in tried {
        if !are_after(best, choice.found.reported.as_slice()) {
            return false;
        }
    }
    true
}

/// Whether each change of a choice was tried, and none is left open.
fn settles(choice: &RepairedChoice) -> bool
    ensures { IsTrue result ↔ IsSettled choice.now }
{
    choice.found.remaining.is_empty() && choice.found.from == 0
}

/// Whether each change of some choices was tried, and none is left open.
pub(crate) fn is_settled(tried: &[RepairedChoice]) -> bool
    ensures { IsTrue result ↔ All IsSettled tried.now }
{
    for choice in tried {
        if !settles(choice) {
            return false;
        }
    }
    true
}
