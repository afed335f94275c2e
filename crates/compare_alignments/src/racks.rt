//! Lines that state other racks.
ghost use Rattle.std.specs.Prelude.{◌≡◌, ◌↔◌, false, slice_get, IsTrue};
ghost use Rattle.compare_alignments.specs.Racks.{DifferAs, OtherRacks, OtherRacksOf};

use gcg_read::{Event, same_seat};
use ref_tiles::Counts;

/// Whether both are racks, and not the same.
fn are_other(rack: &Option<Counts>, other: &Option<Counts>) -> bool
    ensures other { IsTrue result ↔ DifferAs rack.now other.now }
    ensures itself { rack.now ≡ other.now → result ≡ false }
{
    match (rack, other) {
        (Some(tiles), Some(others)) => tiles != others,
        _ => false,
    }
}

/// Whether two lines are of one player, and state racks that are not the same.
fn have_other_racks(event: &Event, line: &Event) -> bool
    ensures other { IsTrue result ↔ OtherRacks event.now line.now }
    ensures itself { event.now ≡ line.now → result ≡ false }
{
    same_seat(event.player, line.player) && are_other(&event.rack, &line.rack)
}

/// Whether there are lines at two places that are of one player, and state racks that are not the same.
pub(crate) fn have_other_racks_at(
    first: &[Event],
    place: usize,
    second: &[Event],
    other: usize,
) -> bool
    ensures other { IsTrue result ↔ OtherRacksOf (slice_get first.now place) (slice_get second.now other) }
    ensures itself { slice_get first.now place ≡ slice_get second.now other → result ≡ false }
{
    match (first.get(place), second.get(other)) {
        (Some(event), Some(line)) => have_other_racks(event, line),
        _ => false,
    }
}
