//! A record: players and events.
ghost use Rattle.std.specs.Prelude.{◌≡◌};

use crate::events::Events;
use crate::players::Players;
use std::alloc::Global;

/// A game record: its players and its events.
#[derive(Debug, Drop)]
pub struct Record {
    /// The two players.
    pub players: Players,
    /// The events, in the order of their lines.
    pub events: Events,
}

impl Record {
    ghost use Rattle.gcg_read.specs.Records.{no_record};

    /// A record without names and events. It takes no memory.
    pub fn empty(alloc: Global) -> Record
        ensures { result ≡ no_record }
    {
        Record {
            players: Players::unnamed(alloc),
            events: Events::new(alloc),
        }
    }
}
