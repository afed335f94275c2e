//! Players' seats, kinds of events, events and lists of them.
ghost use Rattle.std.specs.Prelude.{◌≡◌, [], ◌∷◌, ◌++◌, ◌↔◌, length, IsTrue, OnOk, OnErr};
ghost use Rattle.gcg_read.specs.Players.{same_seat};

use crate::points::Points;
use crate::texts::Text;
use ref_board::{Dir, Square};
use ref_tiles::Counts;
use std::alloc::{AllocError, Global};
use std::marker::Model;

/// One of the two players of a game.
#[derive(Clone, Copy, Debug, PartialEq, Eq)]
pub enum Seat {
    /// Player 1, whom a `#player1` pragma names before the first event, otherwise the first new nickname.
    First,
    /// Player 2, whom a `#player2` pragma names before the first event, otherwise the next new nickname.
    Second,
}

impl Seat {
    ghost use Rattle.gcg_read.specs.Players.{other_seat};

    /// The seat of the other player.
    pub fn other(self) -> Seat
        ensures { result ≡ other_seat self }
    {
        match self {
            Seat::First => Seat::Second,
            Seat::Second => Seat::First,
        }
    }
}

/// Whether both are the same player.
pub fn same_seat(seat: Seat, other: Seat) -> bool
    ensures { result ≡ same_seat seat other }
{
    match (seat, other) {
        (Seat::First, Seat::First) | (Seat::Second, Seat::Second) => true,
        (Seat::First, Seat::Second) | (Seat::Second, Seat::First) => false,
    }
}

/// What happened in an event.
#[derive(Debug, Drop)]
pub enum EventKind {
    /// Tiles were put on the board: where the text begins, in which direction it goes, and the text.
    Play {
        /// The square of the first symbol.
        at: Square,
        /// Whether the text goes across or down.
        dir: Dir,
        /// The symbols, one for each square.
        word: Text,
    },
    /// The player passed.
    Pass,
    /// The player exchanged these tiles.
    Exchange(Counts),
    /// The player exchanged this number of tiles, which are not known.
    ExchangeUnknown(u8),
    /// The play before was taken back.
    Withdraw,
    /// The play before was challenged without success; the score goes to its player.
    Challenge,
    /// A penalty for time.
    Time,
    /// The tiles of a last rack: the other player's, or the player's own.
    LastRack(Counts),
}

impl EventKind {
    ghost use Rattle.gcg_read.specs.Alike.{IsPlayOf};
    ghost use Rattle.gcg_read.specs.declared.events.EventKind.TheVariants as kind_of;

    /// A copy of the kind.
    pub fn copy(&self) -> EventKind
        ensures { result ≡ self.now }
    {
        match self {
            EventKind::Play { at, dir, word } => EventKind::Play {
                at: *at,
                dir: *dir,
                word: word.copy(),
            },
            EventKind::Pass => EventKind::Pass,
            EventKind::Exchange(tiles) => EventKind::Exchange(*tiles),
            EventKind::ExchangeUnknown(number) => EventKind::ExchangeUnknown(*number),
            EventKind::Withdraw => EventKind::Withdraw,
            EventKind::Challenge => EventKind::Challenge,
            EventKind::Time => EventKind::Time,
            EventKind::LastRack(tiles) => EventKind::LastRack(*tiles),
        }
    }

    /// Whether it is a play of this text from this square in this direction, in which a tile that was on the board may be a letter or a dot.
    pub fn is_play_of(&self, at: Square, dir: Dir, word: &Text) -> bool
        ensures { IsTrue result ↔ IsPlayOf self.now at dir word.now }
    {
        match self {
            EventKind::Play {
                at: square,
                dir: way,
                word: text,
            } => *square == at && *way == dir && text.agrees(word),
            _ => false,
        }
    }

    /// Whether it is the play with these symbols from this square in this direction.
    fn is_the_play(&self, at: Square, dir: Dir, word: &Text) -> bool
        ensures { IsTrue result ↔ (self.now ≡ kind_of.Play at dir word.now) }
    {
        match self {
            EventKind::Play {
                at: square,
                dir: way,
                word: text,
            } => *square == at && *way == dir && text.same(word),
            _ => false,
        }
    }

    /// Whether both are the same: of one kind, with the same squares, symbols, tiles and numbers.
    pub fn same(&self, other: &EventKind) -> bool
        ensures { IsTrue result ↔ (self.now ≡ other.now) }
    {
        match (self, other) {
            (_, EventKind::Play { at, dir, word }) => self.is_the_play(*at, *dir, word),
            (EventKind::Exchange(tiles), EventKind::Exchange(others)) => tiles == others,
            (EventKind::ExchangeUnknown(many), EventKind::ExchangeUnknown(others)) => many
                == others,
            (EventKind::LastRack(tiles), EventKind::LastRack(others)) => tiles == others,
            (EventKind::Pass, EventKind::Pass) => true,
            (EventKind::Withdraw, EventKind::Withdraw) => true,
            (EventKind::Challenge, EventKind::Challenge) => true,
            (EventKind::Time, EventKind::Time) => true,
            _ => false,
        }
    }
}

/// Whether both are the same tiles, or neither is stated.
pub fn same_rack(rack: &Option<Counts>, other: &Option<Counts>) -> bool
    ensures { IsTrue result ↔ (rack.now ≡ other.now) }
{
    match (rack, other) {
        (None, None) => true,
        (Some(tiles), Some(others)) => tiles == others,
        (None, Some(_)) | (Some(_), None) => false,
    }
}

/// One event line of a record.
#[derive(Debug, Drop)]
pub struct Event {
    /// The line of the record, counted from 1.
    pub line: u32,
    /// The player that the line names.
    pub player: Seat,
    /// The rack, if the line has one.
    pub rack: Option<Counts>,
    /// What happened.
    pub kind: EventKind,
    /// What the event scores.
    pub score: Points,
    /// The player's total after it, as the line states it.
    pub total: Points,
}

impl Event {
    ghost use Rattle.gcg_read.specs.Alike.{SayTheSame};

    /// A copy of the event.
    pub fn copy(&self) -> Event
        ensures { result ≡ self.now }
    {
        Event {
            line: self.line,
            player: self.player,
            rack: self.rack,
            kind: self.kind.copy(),
            score: self.score,
            total: self.total,
        }
    }

    /// Whether the lines of both say the same, whichever lines of a record they are and whichever player they name.
    pub fn says_the_same(&self, other: &Event) -> bool
        ensures { IsTrue result ↔ SayTheSame self.now other.now }
    {
        same_rack(&self.rack, &other.rack)
            && self.score.value() == other.score.value()
            && self.total.value() == other.total.value()
            && self.kind.same(&other.kind)
    }
}

/// The events of a record, in the order of their lines. Contracts see the list of them.
#[derive(Debug, Drop)]
pub struct Events {
    items: Vec<Event>,
}

impl Model for Events {
    ghost use Rattle.std.specs.Prelude.{List};
    ghost use Rattle.gcg_read.specs.declared.events.Event.{Event};

    ghost Value = { List Event };

    ghost view = { λ e. e.items.items };
}

impl Events {
    ghost use Rattle.std.specs.Prelude.{slice_get, None};
    ghost use Rattle.gcg_read.specs.declared.events.Event.{Event};
    ghost use Rattle.gcg_read.specs.Changes.{IsChangedAt};

    /// No events. It takes no memory.
    pub fn new(alloc: Global) -> Events
        ensures { result ≡ [] }
    {
        Events {
            items: Vec::new(alloc),
        }
    }

    /// The events.
    pub fn as_slice(&self) -> &[Event]
        ensures { result.now ≡ self.now }
    {
        self.items.as_slice()
    }

    /// The number of events.
    pub fn len(&self) -> usize
        ensures { result ≡ length self.now }
    {
        self.items.len()
    }

    /// Whether there is no event.
    pub fn is_empty(&self) -> bool
        ensures { IsTrue result ↔ (self.now ≡ []) }
    {
        self.items.is_empty()
    }

    /// Sets the score of the event at a place. If there is no event there, nothing changes.
    pub fn set_score(&mut self, place: usize, score: Points)
        ensures there { IsChangedAt self.old place (λ (e : Event). record e { score = score }) self.new }
        ensures past { slice_get self.old place ≡ None → self.new ≡ self.old }
    {
        if let Some(event) = self.items.get_mut(place) {
            event.score = score;
        }
    }

    /// Sets the total of the event at a place. If there is no event there, nothing changes.
    pub fn set_total(&mut self, place: usize, total: Points)
        ensures there { IsChangedAt self.old place (λ (e : Event). record e { total = total }) self.new }
        ensures past { slice_get self.old place ≡ None → self.new ≡ self.old }
    {
        if let Some(event) = self.items.get_mut(place) {
            event.total = total;
        }
    }

    /// Appends an event. It fails only if memory runs out, and then the events stay as they were.
    pub fn push(&mut self, event: Event) -> Result<(), AllocError>
        ensures pushed { OnOk result (self.new ≡ self.old ++ event ∷ []) }
        ensures refused { OnErr result (self.new ≡ self.old) }
    {
        self.items.push(event)?;
        Ok(())
    }

    /// Appends copies of events. It fails only if memory runs out.
    pub fn push_copies(&mut self, more: &[Event]) -> Result<(), AllocError>
        ensures { OnOk result (self.new ≡ self.old ++ more.now) }
    {
        for event in more {
            self.push(event.copy())?;
        }
        Ok(())
    }
}
