//! Two sheets of one game, line by line.
ghost use Rattle.std.specs.Prelude.{◌≡◌, ◌+◌, ◌<◌, ◌≤◌, length, if◌then◌else◌};
ghost use Rattle.compare_choices.specs.Sheets.{states_rack, racks_of, owner_of};

use compare_alignments::{Lacks, NumbersOf, Pair, Side, align, lack_at, merge, merge_lacks};
use gcg_drafts::Missing;
use gcg_read::{Event, Events, Record, Seat, same_seat};
use std::alloc::{AllocError, Global};

/// Whether an event is a player's, and its line states a rack.
fn states_rack(player: Seat, event: &Event) -> bool
    ensures { result ≡ states_rack player event.now }
{
    same_seat(event.player, player) && event.rack.is_some()
}

/// How many racks of a player are known with one more line.
fn more_racks(many: usize, player: Seat, event: &Event) -> usize
    requires { many < 18446744073709551615 }
    ensures { result ≡ (if states_rack player event.now then many + 1 else many) }
{
    if states_rack(player, event) {
        many + 1
    } else {
        many
    }
}

/// How many racks of a player a sheet states.
fn racks_of(player: Seat, events: &[Event]) -> usize
    ensures many { result ≡ racks_of player events.now }
    ensures few { result ≤ length events.now }
{
    let mut many = 0;
    for event in events {
        many = more_racks(many, player, event);
    }
    many
}

/// Whose sheet the first one is, by the racks that both state.
fn owner_of(first: &[Event], second: &[Event]) -> Seat
    ensures { result ≡ owner_of first.now second.now }
{
    let own = racks_of(Seat::First, first) as u128 + racks_of(Seat::Second, second) as u128;
    let other = racks_of(Seat::Second, first) as u128 + racks_of(Seat::First, second) as u128;
    if own < other {
        Seat::Second
    } else {
        Seat::First
    }
}

/// Two sheets of one game, line by line.
#[derive(Drop)]
pub struct Sheets {
    /// The first sheet.
    pub first: Record,
    /// The second.
    pub second: Record,
    /// Whose sheet the first one is.
    pub owner: Seat,
    /// The lines of both, aligned.
    pub pairs: Vec<Pair>,
    /// What the lines of each lack, if they are drafts.
    pub lacks: Option<Lacks>,
}

impl Sheets {
    ghost use Rattle.std.specs.Prelude.{IfOk};
    ghost use Rattle.compare_choices.specs.Sheets.{AreSheets};
    ghost use Rattle.compare_choices.specs.Choices.{choice_events};
    ghost use Rattle.compare_choices.specs.Lacking.{choice_lacks, lack_on};

    /// Aligns two sheets. If they are drafts, `lacks` says what their lines lack.
    ///
    /// It fails only if memory runs out.
    pub fn new(
        alloc: Global,
        first: Record,
        second: Record,
        lacks: Option<Lacks>,
    ) -> Result<Sheets, AllocError>
        ensures { IfOk result (AreSheets first second lacks) }
    {
        let owner = owner_of(first.events.as_slice(), second.events.as_slice());
        let pairs = align(alloc, first.events.as_slice(), second.events.as_slice())?;
        Ok(Sheets {
            first,
            second,
            owner,
            pairs,
            lacks,
        })
    }

    /// The events of a choice.
    pub(crate) fn events(
        &self,
        alloc: Global,
        whose: NumbersOf,
        choice: usize,
    ) -> Result<Events, AllocError>
        ensures { IfOk result (λ events. events ≡ choice_events self.now whose choice) }
    {
        merge(
            alloc,
            self.owner,
            whose,
            choice,
            self.first.events.as_slice(),
            self.second.events.as_slice(),
            self.pairs.as_slice(),
        )
    }

    /// What is missing on the lines of a choice, if it is made of drafts, with the numbers of a sheet.
    pub(crate) fn missing(
        &self,
        alloc: Global,
        lacks: &Lacks,
        sheet: Side,
        choice: usize,
    ) -> Result<Vec<Missing>, AllocError>
        ensures { IfOk result (λ all. all.items ≡ choice_lacks self.now lacks.now sheet choice) }
    {
        merge_lacks(
            alloc,
            sheet,
            choice,
            self.first.events.as_slice(),
            self.second.events.as_slice(),
            lacks,
            self.pairs.as_slice(),
        )
    }

    /// What the line of a pair lacks on a sheet: nothing, if it is no draft or has no line there.
    pub fn lack_on(&self, pair: &Pair, sheet: Side) -> Missing
        ensures { result ≡ lack_on self.now pair.now sheet }
    {
        match (&self.lacks, sheet) {
            (None, _) => Missing::Nothing,
            (Some(lacks), Side::First) => lack_at(lacks.first.as_slice(), pair.first),
            (Some(lacks), Side::Second) => lack_at(lacks.second.as_slice(), pair.second),
        }
    }
}
