//! Events with more tiles than there are.
ghost use Rattle.std.specs.Prelude.{◌≡◌, true, IfSome};
ghost use Rattle.game_turns.specs.declared.faults.RuleFault.TheVariants as fault;
ghost use Rattle.explain_facts.specs.Moments.{moment_of, IsRefusedFor};
ghost use Rattle.explain_facts.specs.Tiles.{exchanged, holder_at};
ghost use Rattle.explain_facts.specs.Facts.{IsTrue};
ghost use Rattle.explain_facts.specs.FaultFacts.{says};

use crate::facts::{Fact, TileFact};
use crate::scenes::Scene;
use explain_clues::new_tiles;
use gcg_read::{EventKind, Seat};

/// The number of tiles that a play uses, and the number that its player has.
#[tactic(auto, using(crate::proofs::Plays::of_play, crate::proofs::Because::more_than_held))]
pub(crate) fn too_many_used(scene: &Scene<'_>) -> Option<Fact>
    requires fails { IsRefusedFor (moment_of scene.now) fault.TooManyUsed }
    ensures reported { IfSome result (IsTrue (moment_of scene.now)) }
    ensures named { says fault.TooManyUsed result ≡ true }
{
    let EventKind::Play { at, dir, word } = &scene.event.kind else {
        return None;
    };
    let used = new_tiles(scene.machine.board(), *at, *dir, word.as_slice())?;
    Some(Fact::Tile(TileFact::TooManyUsed {
        player: scene.event.player,
        used,
        has: scene.machine.rack_size(scene.event.player),
    }))
}

/// The number of tiles in the bag, and the number that an exchange needs.
#[tactic(auto, using(crate::proofs::Because::refused_exchange, crate::proofs::Because::bag_too_small))]
pub(crate) fn exchange_refused(scene: &Scene<'_>) -> Option<Fact>
    requires fails { IsRefusedFor (moment_of scene.now) fault.ExchangeRefused }
    ensures reported { IfSome result (IsTrue (moment_of scene.now)) }
    ensures named { says fault.ExchangeRefused result ≡ true }
{
    Some(Fact::Tile(TileFact::ExchangeRefused {
        bag: scene.machine.bag_size(),
        least: scene.rules.exchange_min as usize,
    }))
}

/// The number of tiles that an event exchanges.
fn exchanged(kind: &EventKind) -> usize
    ensures { result ≡ exchanged kind.now }
{
    match kind {
        EventKind::Exchange(tiles) => tiles.total(),
        EventKind::ExchangeUnknown(many) => *many as usize,
        _ => 0,
    }
}

/// The number of tiles that are exchanged, and the number that there are.
#[tactic(auto, using(crate::proofs::Because::large_exchange, crate::proofs::Because::more_than_there_are))]
pub(crate) fn exchange_size(scene: &Scene<'_>) -> Option<Fact>
    requires fails { IsRefusedFor (moment_of scene.now) fault.ExchangeSize }
    ensures reported { IfSome result (IsTrue (moment_of scene.now)) }
    ensures named { says fault.ExchangeSize result ≡ true }
{
    Some(Fact::Tile(TileFact::ExchangeSize {
        tiles: exchanged(&scene.event.kind),
        player: scene.event.player,
        has: scene.machine.rack_size(scene.event.player),
        bag: scene.machine.bag_size(),
    }))
}

/// The player whose last rack an event shows: the other player once a player is out, otherwise its own player.
fn holder(scene: &Scene<'_>) -> Seat
    ensures { result ≡ holder_at (moment_of scene.now) }
{
    match scene.machine.out() {
        Some(out) => out.other(),
        None => scene.event.player,
    }
}

/// The number of tiles that a last rack shows, and the number that its holder has.
#[tactic(auto, using(crate::proofs::Plays::of_last_rack, crate::proofs::Because::rack_size_differs))]
pub(crate) fn last_rack_size(scene: &Scene<'_>) -> Option<Fact>
    requires fails { IsRefusedFor (moment_of scene.now) fault.LastRackSize }
    ensures reported { IfSome result (IsTrue (moment_of scene.now)) }
    ensures named { says fault.LastRackSize result ≡ true }
{
    let EventKind::LastRack(tiles) = &scene.event.kind else {
        return None;
    };
    let holder = holder(scene);
    Some(Fact::Tile(TileFact::LastRackSize {
        shown: tiles.total(),
        holder,
        has: scene.machine.rack_size(holder),
    }))
}
