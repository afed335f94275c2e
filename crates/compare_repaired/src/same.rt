//! Whether two records are of the same game.
ghost use Rattle.std.specs.Prelude.{◌≡◌, ◌↔◌, IsTrue};
ghost use Rattle.compare_repaired.specs.Same.{RacksAgree, SameLine, SameGame};

use compare_alignments::agree;
use gcg_read::Event;
use ref_tiles::Counts;

/// Whether two lines state the same rack, or one of them does not state a rack.
fn racks_agree(rack: &Option<Counts>, other: &Option<Counts>) -> bool
    ensures { IsTrue result ↔ RacksAgree rack.now other.now }
{
    match (rack, other) {
        (Some(tiles), Some(others)) => tiles == others,
        (None, None) | (None, Some(_)) | (Some(_), None) => true,
    }
}

/// Whether two lines say the same of what happened, and do not state different racks.
fn same_line(event: &Event, other: &Event) -> bool
    ensures { IsTrue result ↔ SameLine event.now other.now }
{
    agree(event, other) && racks_agree(&event.rack, &other.rack)
}

/// Whether two records say the same of what happened, line by line, and do not state different racks.
pub(crate) fn same_game(events: &[Event], others: &[Event]) -> bool
    ensures { IsTrue result ↔ SameGame events.now others.now }
{
    if events.len() != others.len() {
        return false;
    }
    for place in 0..events.len() {
        if !same_line(&events[place], &others[place]) {
            return false;
        }
    }
    true
}
