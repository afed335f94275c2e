//! Racks, what is held before an event, and the deal of a whole game.
ghost use Rattle.std.specs.Prelude.{◌≡◌};

use ref_tiles::Counts;
use std::marker::Model;

/// The racks of both players.
#[derive(Clone, Copy, Debug)]
pub struct Racks {
    /// That of the first player.
    pub first: Counts,
    /// That of the second player.
    pub second: Counts,
}

/// What the players hold before an event, and what the event throws.
#[derive(Clone, Copy, Debug)]
pub struct Held {
    /// Both full racks before the event.
    pub racks: Racks,
    /// The tiles that the event throws.
    pub thrown: Counts,
}

/// The racks of a whole game, event by event. Contracts see the list of them.
#[derive(Debug, Drop)]
pub struct Deal {
    /// What the players hold before each event, and what it throws.
    pub held: Vec<Held>,
}

impl Model for Deal {
    ghost use Rattle.std.specs.Prelude.{List};
    ghost use Rattle.deal_steps.specs.declared.deals.Held.{Held};

    ghost Value = { List Held };

    ghost view = { λ d. d.held.items };
}

impl Deal {
    /// The deal of these racks, one for each event.
    pub fn of(held: Vec<Held>) -> Deal
        ensures { result ≡ held.items }
    {
        Deal { held }
    }

    /// What the players hold, event by event.
    pub fn as_slice(&self) -> &[Held]
        ensures { result.now ≡ self.now }
    {
        self.held.as_slice()
    }
}
