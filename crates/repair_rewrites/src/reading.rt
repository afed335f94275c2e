//! Whether a text that was made of a sheet reads as the events that it was made for.
ghost use Rattle.std.specs.Prelude.{◌≡◌, ◌↔◌, IsTrue, IfOk};
ghost use Rattle.gcg_read.specs.Records.{record_of};
ghost use Rattle.repair_rewrites.specs.Reading.{ReadsByName, ReadsBySeat};

use crate::comparing::{alike_by_name, alike_by_seat};
use gcg_read::{Event, Players, ReadFault, Record, Why, read};
use std::alloc::{AllocError, Global};

/// The record of a text, or its first fault.
#[tactic(auto, using(crate::proofs::Readings::no_game))]
fn record_in(alloc: Global, text: &[u8]) -> Result<Result<Record, ReadFault>, AllocError>
    ensures { IfOk result (λ found. found ≡ record_of text.now) }
{
    let fault = match read(alloc, text) {
        Ok(game) => return Ok(Ok(game)),
        Err(fault) => fault,
    };
    if fault.why == Why::NoMemory {
        return Err(AllocError);
    }
    Ok(Err(fault))
}

/// Whether a text reads as these events of players with these nicknames, whichever lines they are on.
///
/// It fails only if memory runs out.
#[tactic(auto, using(crate::proofs::Readings::by_name, crate::proofs::Readings::nobody))]
pub(crate) fn reads_by_name(
    alloc: Global,
    text: &[u8],
    players: &Players,
    right: &[Event],
) -> Result<bool, AllocError>
    ensures { IfOk result (λ reads. IsTrue reads ↔ ReadsByName players.now right.now text.now) }
{
    match record_in(alloc, text)? {
        Ok(game) => Ok(alike_by_name(players, right, &game.players, game.events.as_slice())),
        Err(_) => Ok(false),
    }
}

/// Whether a text reads as these events of the players in the same seats, whichever lines they are on.
///
/// It fails only if memory runs out.
#[tactic(auto, using(crate::proofs::Readings::by_seat, crate::proofs::Readings::no_seat))]
pub(crate) fn reads_by_seat(alloc: Global, text: &[u8], right: &[Event]) -> Result<bool, AllocError>
    ensures { IfOk result (λ reads. IsTrue reads ↔ ReadsBySeat right.now text.now) }
{
    match record_in(alloc, text)? {
        Ok(game) => Ok(alike_by_seat(right, game.events.as_slice())),
        Err(_) => Ok(false),
    }
}
