//! The same text at another spot, with the rest of the record.
ghost use Rattle.std.specs.Prelude.{◌≡◌, ◌++◌, ◌∷◌, IfOk, filter, length};
ghost use Rattle.explain_facts.specs.Moments.{moment_of};
ghost use Rattle.explain_facts.specs.Elsewhere.{allows_to, event_at, stands_at};

use crate::scenes::Scene;
use explain_clues::Spot;
use game_turns::play_events;
use gcg_read::{Event, EventKind, Events, Text};
use lex_list::WordList;
use ref_tiles::Rules;
use std::alloc::{AllocError, Global};

/// Whether the rules allow every event.
#[tactic(auto, using(crate::proofs::Places::all_allowed, crate::proofs::Places::one_refused))]
fn allows_all(rules: &Rules, list: &WordList, events: &[Event]) -> bool
    ensures { result ≡ allows_to rules.now list.now events.now (length events.now) }
{
    match play_events(rules, events, list, events.len()) {
        Ok(_) => true,
        Err(_) => false,
    }
}

/// An event as a play of a text at a spot.
fn event_at(event: &Event, word: &Text, spot: &Spot) -> Event
    ensures { result ≡ event_at event.now word.now spot.now }
{
    Event {
        line: event.line,
        player: event.player,
        rack: event.rack,
        kind: EventKind::Play {
            at: spot.at,
            dir: spot.dir,
            word: word.copy(),
        },
        score: event.score,
        total: event.total,
    }
}

/// The record with the event as a play of a text at a spot.
fn moved(alloc: Global, scene: &Scene<'_>, word: &Text, spot: &Spot) -> Result<Events, AllocError>
    ensures { IfOk result (λ events. events ≡ scene.now.past.now ++ event_at scene.now.event.now word.now spot.now ∷ scene.now.later.now) }
{
    let mut events = Events::new(alloc);
    events.push_copies(scene.past)?;
    events.push(event_at(scene.event, word, spot))?;
    events.push_copies(scene.later)?;
    Ok(events)
}

/// Whether the rules allow every event of the record with the event as a play of a text at a spot.
#[tactic(auto, unfolding(crate::specs::Elsewhere::stands_at))]
fn stands_at(alloc: Global, scene: &Scene<'_>, word: &Text, spot: &Spot) -> Result<bool, AllocError>
    ensures { IfOk result (λ stands. stands ≡ stands_at (moment_of scene.now) word.now spot.now) }
{
    let events = moved(alloc, scene, word, spot)?;
    Ok(allows_all(scene.rules, scene.list, events.as_slice()))
}

/// The spots at which the text of a play stands with the rest of the record.
pub(crate) fn standing_spots(
    alloc: Global,
    scene: &Scene<'_>,
    word: &Text,
    spots: &[Spot],
) -> Result<Vec<Spot>, AllocError>
    ensures { IfOk result (λ standing. standing.items ≡ filter (stands_at (moment_of scene.now) word.now) spots.now) }
{
    let mut standing = Vec::new(alloc);
    for spot in spots {
        if stands_at(alloc, scene, word, spot)? {
            standing.push(*spot)?;
        }
    }
    Ok(standing)
}
