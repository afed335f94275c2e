//! The players of a record, and which of them a nickname means.
ghost use Rattle.std.specs.Prelude.{◌≡◌, OnOk, OnErr, not};

use crate::events::Seat;
use crate::names::Name;
use crate::pragmas::Naming;
use std::alloc::{AllocError, Global};

/// What a record says about a player. A player without a nickname has the empty one.
#[derive(Debug, Drop)]
pub struct Player {
    /// The nickname, by which event lines name the player.
    pub nick: Name,
    /// The full name, empty if the record gives none.
    pub full: Name,
}

/// The two players of a record.
#[derive(Debug, Drop)]
pub struct Players {
    /// The player in the first seat.
    pub first: Player,
    /// The player in the second seat.
    pub second: Player,
}

impl Player {
    ghost use Rattle.gcg_read.specs.Players.{no_player, is_unnamed, with_nick};

    /// A player without names. It takes no memory.
    pub fn unnamed(alloc: Global) -> Player
        ensures { result ≡ no_player }
    {
        Player {
            nick: Name::empty(alloc),
            full: Name::empty(alloc),
        }
    }

    /// Whether the player has a nickname.
    pub(crate) fn is_named(&self) -> bool
        ensures { result ≡ not (is_unnamed self.now) }
    {
        !self.nick.as_bytes().is_empty()
    }

    /// Gives the player this nickname, if there is none yet. It fails only if memory runs out, and then the player stays as it was.
    fn take_nick(&mut self, alloc: Global, nick: &[u8]) -> Result<(), AllocError>
        ensures named { OnOk result (self.new ≡ with_nick self.old nick.now) }
        ensures refused { OnErr result (self.new ≡ self.old) }
    {
        if self.nick.as_bytes().is_empty() {
            self.nick = Name::copied(alloc, nick)?;
        }
        Ok(())
    }
}

impl Players {
    ghost use Rattle.gcg_read.specs.Players.{no_players, player_of, with_player, seat_for, seated};

    /// Two players without names. It takes no memory.
    pub fn unnamed(alloc: Global) -> Players
        ensures { result ≡ no_players }
    {
        Players {
            first: Player::unnamed(alloc),
            second: Player::unnamed(alloc),
        }
    }

    /// The player in a seat.
    pub fn of(&self, seat: Seat) -> &Player
        ensures { result.now ≡ player_of self.now seat }
    {
        match seat {
            Seat::First => &self.first,
            Seat::Second => &self.second,
        }
    }

    /// The seat of a nickname: of the player who has it, or else of the first player who has none; none if both players have others.
    pub(crate) fn seat_for(&self, nick: &[u8]) -> Option<Seat>
        ensures { result ≡ seat_for self.now nick.now }
    {
        let first = self.first.nick.as_bytes();
        let second = self.second.nick.as_bytes();
        if first == nick {
            Some(Seat::First)
        } else if second == nick {
            Some(Seat::Second)
        } else if first.is_empty() {
            Some(Seat::First)
        } else if second.is_empty() {
            Some(Seat::Second)
        } else {
            None
        }
    }

    /// Gives the names in a pragma to the player that it names. It fails only if memory runs out, and then the players stay as they were.
    pub(crate) fn take_names(&mut self, alloc: Global, naming: Naming<'_>) -> Result<(), AllocError>
        ensures named { OnOk result (self.new ≡ with_player self.old naming.entry.seat
            (record { nick = naming.entry.nick.now; full = naming.entry.full.now })) }
        ensures refused { OnErr result (self.new ≡ self.old) }
    {
        let player = Player {
            nick: Name::copied(alloc, naming.nick)?,
            full: Name::copied(alloc, naming.full)?,
        };
        match naming.seat {
            Seat::First => self.first = player,
            Seat::Second => self.second = player,
        }
        Ok(())
    }

    /// Gives the player in a seat this nickname, if there is none yet. It fails only if memory runs out, and then the players stay
    /// as they were.
    pub(crate) fn take_nick(
        &mut self,
        alloc: Global,
        seat: Seat,
        nick: &[u8],
    ) -> Result<(), AllocError>
        ensures named { OnOk result (self.new ≡ seated self.old seat nick.now) }
        ensures refused { OnErr result (self.new ≡ self.old) }
    {
        match seat {
            Seat::First => self.first.take_nick(alloc, nick),
            Seat::Second => self.second.take_nick(alloc, nick),
        }
    }
}
