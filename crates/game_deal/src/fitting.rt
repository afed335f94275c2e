//! Whether a deal fits a record.
ghost use Rattle.std.specs.Prelude.{◌↔◌, IsTrue};
ghost use Rattle.game_deal.specs.Bounded.{FitsRecord};

use crate::walking::{starting, take_step};
use deal_steps::{Deal, fits_at, follows_to};
use game_turns::Passed;

/// Whether a deal fits a record that passed. It takes no memory.
///
/// It has the racks before each event. Tiles on the board and on both racks are those of the tile set, and all others are in the
/// bag; racks and bag have the sizes that the turns leave. What a line states, uses or throws is on its player's rack, and a last
/// rack is all that its holder has. A rack changes only by what its player uses and draws, and what is drawn was in the bag before
/// the event, so thrown tiles do not come back in the same draw.
pub fn fits(passed: &Passed<'_>, deal: &Deal) -> bool
    ensures { IsTrue result ↔ FitsRecord passed.now deal.now }
{
    let rules = passed.rules();
    let events = passed.record().events.as_slice();
    let held = deal.as_slice();
    if held.len() != events.len() {
        return false;
    }
    let mut machine = starting(passed);
    for place in 0..held.len() {
        let step = take_step(passed, &mut machine, place);
        let now = &held[place];
        let (_, rest) = held.split_at(place + 1);
        if !fits_at(rules, &step, now) {
            return false;
        }
        if !follows_to(rules, &step, now, rest) {
            return false;
        }
    }
    true
}
