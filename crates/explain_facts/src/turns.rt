//! Whose turn it is, and whether there are any more.
ghost use Rattle.std.specs.Prelude.{◌≡◌, false, true, None, IfSome};
ghost use Rattle.game_turns.specs.Tallies.{is_last_rack};
ghost use Rattle.game_turns.specs.Seats.{side_of};
ghost use Rattle.game_turns.specs.declared.faults.RuleFault.TheVariants as fault;
ghost use Rattle.game_turns.specs.Machines.{state_of};
ghost use Rattle.explain_facts.specs.Moments.{moment_of, IsRefusedFor};
ghost use Rattle.explain_facts.specs.Facts.{IsTrue};
ghost use Rattle.explain_facts.specs.FaultFacts.{is_fact_of, says};

use crate::facts::{Fact, TurnFact};
use crate::scenes::Scene;
use gcg_read::{EventKind, Seat};

/// On whose line a last rack must be.
#[tactic(auto, using(crate::proofs::Because::line_of_out))]
fn others_line(scene: &Scene<'_>) -> Option<Fact>
    requires fails { IsRefusedFor (moment_of scene.now) fault.NotYourTurn }
    requires rack { is_last_rack scene.now.event.now.kind ≡ true }
    ensures reported { IfSome result (IsTrue (moment_of scene.now)) }
    ensures named { says fault.NotYourTurn result ≡ true }
{
    let out = scene.machine.out()?;
    Some(Fact::Turn(TurnFact::OthersLine {
        player: scene.event.player,
        out,
    }))
}

/// Whether an event is a last rack.
fn is_last_rack(kind: &EventKind) -> bool
    ensures { result ≡ is_last_rack kind.now }
{
    matches!(kind, EventKind::LastRack(_))
}

/// Whose turn it is, or on whose line a last rack must be.
#[tactic(auto, using(crate::proofs::Because::turn_of_other))]
pub(crate) fn not_your_turn(scene: &Scene<'_>) -> Option<Fact>
    requires fails { IsRefusedFor (moment_of scene.now) fault.NotYourTurn }
    ensures reported { IfSome result (IsTrue (moment_of scene.now)) }
    ensures named { says fault.NotYourTurn result ≡ true }
{
    if is_last_rack(&scene.event.kind) {
        return others_line(scene);
    }
    Some(Fact::Turn(TurnFact::OthersTurn {
        player: scene.event.player,
        other: scene.event.player.other(),
    }))
}

/// The player who has lost the points of a rack, if turns are over and no player is out.
fn loser(scene: &Scene<'_>) -> Seat
    requires fails { IsRefusedFor (moment_of scene.now) fault.GameOver }
    requires running { (state_of scene.now.machine.now).complete ≡ false }
    requires none { (state_of scene.now.machine.now).out ≡ None }
    ensures { (side_of (state_of scene.now.machine.now).sides result).ended ≡ true }
{
    let player = scene.event.player;
    if scene.machine.has_ended(player) {
        return player;
    }
    player.other()
}

/// That a player has lost the points of a rack, if turns are over and no player is out.
fn rack_lost(scene: &Scene<'_>) -> Fact
    requires fails { IsRefusedFor (moment_of scene.now) fault.GameOver }
    requires running { (state_of scene.now.machine.now).complete ≡ false }
    requires none { (state_of scene.now.machine.now).out ≡ None }
    ensures reported { IsTrue (moment_of scene.now) result }
    ensures named { is_fact_of fault.GameOver result ≡ true }
{
    let player = loser(scene);
    Fact::Turn(TurnFact::RackLost {
        player,
        holder: player.other(),
    })
}

/// Why there are no more turns, and what is missing.
pub(crate) fn game_over(scene: &Scene<'_>) -> Option<Fact>
    requires fails { IsRefusedFor (moment_of scene.now) fault.GameOver }
    ensures reported { IfSome result (IsTrue (moment_of scene.now)) }
    ensures named { says fault.GameOver result ≡ true }
{
    if scene.machine.finished() {
        return Some(Fact::Turn(TurnFact::Complete));
    }
    match scene.machine.out() {
        Some(out) => Some(Fact::Turn(TurnFact::Out {
            out,
            holder: out.other(),
        })),
        None => Some(rack_lost(scene)),
    }
}

/// Why no last rack is due.
#[tactic(auto, using(crate::proofs::Because::none_out, crate::proofs::Because::turns_remaining))]
pub(crate) fn not_over(scene: &Scene<'_>) -> Option<Fact>
    requires fails { IsRefusedFor (moment_of scene.now) fault.NotOver }
    ensures reported { IfSome result (IsTrue (moment_of scene.now)) }
    ensures named { says fault.NotOver result ≡ true }
{
    Some(Fact::Turn(TurnFact::NoRackDue {
        limit: scene.rules.zero_limit as usize,
        turns: scene.machine.idle_turns(),
    }))
}
