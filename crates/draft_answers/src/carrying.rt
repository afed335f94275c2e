//! The last totals that are known of a draft.
ghost use Rattle.std.specs.Prelude.{◌≡◌, ◌<◌, ◌+◌, List, length, slice_get};
ghost use Rattle.std.specs.Option.{option_copied};
ghost use Rattle.gcg_read.specs.declared.events.Event.{Event as Happened};
ghost use Rattle.gcg_read.specs.Changes.{IsChangedAt};
ghost use Rattle.game_corrections.specs.WrongNumbers.{had_before};
ghost use Rattle.draft_answers.specs.KnownTotals.{place_of_stop, is_unknown, AreKnownTo, HaveKnownTotals};

use crate::counting::is_missing;
use crate::filling::said;
use game_board::place_of_line;
use game_corrections::had_before;
use game_walk::Refusal;
use gcg_drafts::Missing;
use gcg_read::{Event, Events, Points};

/// The place of the line at which a correction stops, if it does.
pub(crate) fn place_of_stop(events: &[Event], stopped: &Option<Refusal>) -> Option<usize>
    ensures { result ≡ place_of_stop events.now stopped.now }
{
    match stopped {
        None => None,
        Some(refusal) => place_of_line(events, refusal.line),
    }
}

/// Whether the total of an event is neither written nor known.
fn is_unknown(stop: Option<usize>, lacks: &[Missing], place: usize) -> bool
    ensures { result ≡ is_unknown stop lacks.now place }
{
    match stop {
        None => false,
        Some(stop) => stop <= place && is_missing(said(lacks.get(place))),
    }
}

/// Gives the event at a place the total that its player had before it.
fn carry(events: &mut Events, place: usize)
    requires { place < length events.old }
    ensures { IsChangedAt events.old place (λ (e : Happened). record e { total = had_before events.old e.player place }) events.new }
{
    let lines = events.as_slice();
    let had = had_before(lines, lines[place].player, place);
    events.set_total(place, Points::new(had).unwrap());
}

/// The same, if its total is neither written nor known.
#[tactic(auto, using(crate::proofs::Carried::one_known))]
fn carry_unknown(events: &mut Events, lacks: &[Missing], stop: Option<usize>, place: usize)
    requires { place < length events.old }
    ensures { (all : List Happened) → AreKnownTo stop lacks.now all events.old place → AreKnownTo stop lacks.now all events.new (place + 1) }
{
    if !is_unknown(stop, lacks, place) {
        return;
    }
    carry(events, place);
}

/// Gives each event whose total is neither written nor known the last one that is known of its player.
#[tactic(auto, using(crate::proofs::Carried::none_carried, crate::proofs::Carried::all_carried))]
pub(crate) fn carry_totals(events: &mut Events, lacks: &[Missing], stop: Option<usize>)
    ensures { HaveKnownTotals stop lacks.now events.old events.new }
{
    for place in 0..events.len() {
        carry_unknown(events, lacks, stop, place);
    }
}
