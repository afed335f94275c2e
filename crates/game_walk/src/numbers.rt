//! The numbers of an event: its score and its total.
ghost use Rattle.std.specs.Prelude.{◌≡◌, map, IfOk};
ghost use Rattle.game_walk.specs.Numbers.{numbers_in, renumbered};

use gcg_read::{Event, Events, Points};
use std::alloc::{AllocError, Global};

/// The score and the total of an event.
#[derive(Clone, Copy, Debug, PartialEq, Eq)]
pub struct Numbers {
    /// The score of the event.
    pub score: Points,
    /// The player's total after it.
    pub total: Points,
}

/// The numbers of an event.
pub fn numbers_in(event: &Event) -> Numbers
    ensures { result ≡ numbers_in event.now }
{
    Numbers {
        score: event.score,
        total: event.total,
    }
}

/// The numbers of the events.
///
/// It fails only if memory runs out.
pub fn numbers_of(alloc: Global, events: &[Event]) -> Result<Vec<Numbers>, AllocError>
    ensures { IfOk result (λ numbers. numbers.items ≡ map numbers_in events.now) }
{
    let mut numbers = Vec::new(alloc);
    for event in events {
        numbers.push(numbers_in(event))?;
    }
    Ok(numbers)
}

/// Gives the first events these numbers, and leaves the events after them as they are.
pub fn renumber(events: &mut Events, numbers: &[Numbers])
    ensures { events.new ≡ renumbered events.old numbers.now }
{
    for place in 0..numbers.len() {
        let own = &numbers[place];
        events.set_score(place, own.score);
        events.set_total(place, own.total);
    }
}
