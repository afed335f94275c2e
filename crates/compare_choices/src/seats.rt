//! Two sheets of which each has its own player first.
ghost use Rattle.std.specs.Prelude.{◌≡◌, IfOk};
ghost use Rattle.compare_choices.specs.Seats.{same_name, same_player, are_exchanged, in_seats_of};

use compare_alignments::in_other_seats;
use gcg_read::{Player, Players, Record};
use std::alloc::{AllocError, Global};

/// Whether two texts are the same, and not empty.
fn same_name(name: &[u8], other: &[u8]) -> bool
    ensures { result ≡ same_name name.now other.now }
{
    !name.is_empty() && name == other
}

/// Whether both have the same nickname, or the same full name.
fn same_player(player: &Player, other: &Player) -> bool
    ensures { result ≡ same_player player.now other.now }
{
    same_name(player.nick.as_bytes(), other.nick.as_bytes())
        || same_name(player.full.as_bytes(), other.full.as_bytes())
}

/// Whether the players of a second sheet are in the other order: a name says so, and no name says that they are in the same.
fn are_exchanged(players: &Players, others: &Players) -> bool
    ensures { result ≡ are_exchanged players.now others.now }
{
    (same_player(&players.first, &others.second) || same_player(&players.second, &others.first))
        && !(same_player(&players.first, &others.first)
            || same_player(&players.second, &others.second))
}

/// The record of a second sheet, with its players in the order of the first one, if their names say that they are in the other.
///
/// It fails only if memory runs out.
pub fn in_seats_of(alloc: Global, players: &Players, second: Record) -> Result<Record, AllocError>
    ensures { IfOk result (λ sheet. sheet ≡ in_seats_of players.now second) }
{
    if !are_exchanged(players, &second.players) {
        return Ok(second);
    }
    let events = in_other_seats(alloc, second.events.as_slice())?;
    let others = second.players;
    Ok(Record {
        players: Players {
            first: others.second,
            second: others.first,
        },
        events,
    })
}
