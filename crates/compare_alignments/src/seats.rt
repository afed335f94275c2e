//! Events with their players in the other order.
ghost use Rattle.std.specs.Prelude.{◌≡◌, map, take, IfOk};
ghost use Rattle.gcg_read.specs.Players.{other_seat};
ghost use Rattle.compare_alignments.specs.Seats.{in_other_seat};

use gcg_read::{Event, Events};
use std::alloc::{AllocError, Global};

/// A copy of the event, of the other player.
fn in_other_seat(event: &Event) -> Event
    ensures { result ≡ in_other_seat event.now }
{
    let mut copy = event.copy();
    copy.player = event.player.other();
    copy
}

/// The events, each of the other player.
///
/// It fails only if memory runs out.
pub fn in_other_seats(alloc: Global, events: &[Event]) -> Result<Events, AllocError>
    ensures { IfOk result (λ others. others ≡ map in_other_seat events.now) }
{
    let mut others = Events::new(alloc);
    for event in events {
        others.push(in_other_seat(event))?;
    }
    Ok(others)
}
