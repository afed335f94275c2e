//! What is said of the best play of a turn, by a table of those that are known.
ghost use Rattle.std.specs.Prelude.{◌≡◌, ℕ, pos, List, IfSome};
ghost use Rattle.ref_tiles.specs.declared.rulebook.Rules.{Rules};
ghost use Rattle.game_turns.specs.Machines.{state_of};
ghost use Rattle.lex_check.specs.Pairs.{list_in};
ghost use Rattle.game_notes.specs.Following.{Follows};
ghost use Rattle.game_bests.specs.Bests.{IsTurnBest};
ghost use Rattle.game_known.specs.Known.{AreKnown};

use crate::copying::of_turn;
use crate::known::KnownBests;
use game_bests::{TurnBest, best_of_turn};
use game_notes::Follow;
use game_report::{full_rack, is_judged};
use game_turns::Machine;
use gcg_read::Event;
use lex_check::Checked;
use ref_tiles::Rules;

/// What is said of the best play of an event that gave `gave` points, if that is known without a search; `machine` is before the event. It is
/// known for an event that is not a turn, and for a turn that does not show its rack.
#[tactic(auto, using(crate::proofs::TurnLaws::known_turn, game_bests::proofs::BestLaws::hidden_best, game_bests::proofs::BestLaws::idle_best))]
pub(crate) fn known_best_of_turn(
    known: &KnownBests,
    machine: &Machine,
    event: &Event,
    gave: i32,
) -> Option<TurnBest>
    ensures { (rules : Rules) (list : List (List ℕ)) → AreKnown rules list known.now
        → IfSome result (IsTurnBest rules list (state_of machine.now) event.now gave) }
{
    if !is_judged(&event.kind, machine.out()) {
        return Some(TurnBest::NoTurn);
    }
    let Some(rack) = full_rack(machine, event) else {
        return Some(TurnBest::NotShown);
    };
    let kept = known.find(machine.board(), &rack)?;
    Some(of_turn(kept, gave))
}

/// Keeps what is said of the best play of an event that gave nothing, if it is a turn that shows its rack; `machine` is before it.
#[tactic(auto, using(crate::proofs::TurnLaws::shown_turn))]
fn keep_best(known: &mut KnownBests, machine: &Machine, event: &Event, best: TurnBest)
    ensures { (rules : Rules) (list : List (List ℕ)) → AreKnown rules list known.old
        → IsTurnBest rules list (state_of machine.now) event.now (pos 0) best → AreKnown rules list known.new }
{
    if !is_judged(&event.kind, machine.out()) {
        return;
    }
    if let Some(rack) = full_rack(machine, event) {
        known.keep(machine.board(), &rack, best);
    }
}

/// What is said of the best play of an event that gave `gave` points, by a search; `machine` is before the event. What is found is known from then
/// on. If `follow` has the board of the machine, its cross-sets need not be computed anew.
#[tactic(auto, using(crate::proofs::TurnLaws::same_turn))]
pub(crate) fn find_best_of_turn(
    rules: &Rules,
    pair: &Checked<'_>,
    machine: &Machine,
    follow: &Follow,
    event: &Event,
    gave: i32,
    known: &mut KnownBests,
) -> TurnBest
    requires follows { Follows rules.now (list_in pair.now) follow.now }
    requires known { AreKnown rules.now (list_in pair.now) known.old }
    ensures best { IsTurnBest rules.now (list_in pair.now) (state_of machine.now) event.now gave result }
    ensures known { AreKnown rules.now (list_in pair.now) known.new }
{
    let best = best_of_turn(rules, pair, machine, follow, event, 0);
    let reported = of_turn(&best, gave);
    keep_best(known, machine, event, best);
    reported
}
