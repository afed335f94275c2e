//! Copies of players and of records.
ghost use Rattle.std.specs.Prelude.{◌≡◌, take, IfOk};

use gcg_read::{Event, Events, Name, Player, Players, Record};
use std::alloc::{AllocError, Global};

/// Copies of some events.
fn copy_events(alloc: Global, events: &[Event]) -> Result<Events, AllocError>
    ensures { IfOk result (λ copies. copies ≡ events.now) }
{
    let mut copies = Events::new(alloc);
    copies.push_copies(events)?;
    Ok(copies)
}

/// A copy of a player.
fn copy_player(alloc: Global, player: &Player) -> Result<Player, AllocError>
    ensures { IfOk result (λ copy. copy ≡ player.now) }
{
    Ok(Player {
        nick: Name::copied(alloc, player.nick.as_bytes())?,
        full: Name::copied(alloc, player.full.as_bytes())?,
    })
}

/// A record of copies of these players and events.
///
/// It fails only if memory runs out.
pub(crate) fn record_of(
    alloc: Global,
    players: &Players,
    events: &[Event],
) -> Result<Record, AllocError>
    ensures { IfOk result (λ game. game ≡ record { players = players.now; events = events.now }) }
{
    let players = Players {
        first: copy_player(alloc, &players.first)?,
        second: copy_player(alloc, &players.second)?,
    };
    let events = copy_events(alloc, events)?;
    Ok(Record { players, events })
}
