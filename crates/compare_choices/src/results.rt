//! What two sheets say of the end of a game, and which racks they say differently.
ghost use Rattle.std.specs.Prelude.{◌≡◌, ◌↔◌, IsTrue, IsFalse};
ghost use Rattle.compare_alignments.specs.Merging.{line_at};
ghost use Rattle.compare_choices.specs.Results.{OtherRacks, HaveOtherRacks, Agrees, AreTotals, AreResults};

use crate::known::{standing_on, total_on};
use crate::sheets::Sheets;
use compare_alignments::{Pair, Side};
use game_corrections::{Standing, last_total, standing_in};
use gcg_read::{Event, Points, Seat};

/// The last totals of a player.
#[derive(Clone, Copy)]
pub struct LastTotals {
    /// On the first sheet; none if no line there is the player's, or the last one lacks its total.
    pub first: Option<Points>,
    /// On the second.
    pub second: Option<Points>,
    /// In the merged record.
    pub right: Option<Points>,
    /// Whether those of the sheets are the right one, but for a total that a draft lacks.
    pub agree: bool,
}

/// How a game ends by two sheets and by the merged record.
#[derive(Clone, Copy)]
pub struct Results {
    /// The last totals of the first player.
    pub of_first: LastTotals,
    /// Those of the second player.
    pub of_second: LastTotals,
    /// Who is ahead by the first sheet; none if it is a draft that lacks a last total.
    pub first: Option<Standing>,
    /// Who is ahead by the second sheet.
    pub second: Option<Standing>,
    /// Who is ahead by the merged record.
    pub right: Standing,
}

/// Whether two totals are the same, or there is none.
fn same_total(total: Option<Points>, right: Option<Points>) -> bool
    ensures { IsTrue result ↔ (total ≡ right) }
{
    match (total, right) {
        (Some(total), Some(right)) => total.value() == right.value(),
        (None, None) => true,
        _ => false,
    }
}

/// Whether a last total is the right one, or a draft lacks it.
fn agrees(sheets: &Sheets, total: Option<Points>, right: Option<Points>) -> bool
    ensures { IsTrue result ↔ Agrees sheets.now total right }
{
    same_total(total, right) || (sheets.lacks.is_some() && total.is_none())
}

/// The last totals of a player.
fn totals_of(sheets: &Sheets, right: &[Event], player: Seat) -> LastTotals
    ensures { AreTotals sheets.now right.now player result }
{
    let first = total_on(sheets, Side::First, player);
    let second = total_on(sheets, Side::Second, player);
    let due = last_total(right, player);
    LastTotals {
        first,
        second,
        right: due,
        agree: agrees(sheets, first, due) && agrees(sheets, second, due),
    }
}

/// How a game ends by two sheets and by the events of a merged record.
pub fn results_of(sheets: &Sheets, right: &[Event]) -> Results
    ensures { AreResults sheets.now right.now result }
{
    Results {
        of_first: totals_of(sheets, right, Seat::First),
        of_second: totals_of(sheets, right, Seat::Second),
        first: standing_on(sheets, Side::First),
        second: standing_on(sheets, Side::Second),
        right: standing_in(right),
    }
}

/// Whether both lines state a rack, and not the same.
fn other_racks(event: &Event, other: &Event) -> bool
    ensures { IsTrue result ↔ OtherRacks event.now other.now }
{
    match (&event.rack, &other.rack) {
        (Some(tiles), Some(others)) => tiles != others,
        _ => false,
    }
}

/// Whether both lines of a pair state a rack, and not the same.
pub fn have_other_racks(sheets: &Sheets, pair: &Pair) -> bool
    ensures { IsTrue result ↔ HaveOtherRacks sheets.now pair.now }
{
    let (Some(place), Some(other)) = (pair.first, pair.second) else {
        return false;
    };
    let first = sheets.first.events.as_slice().get(place);
    let second = sheets.second.events.as_slice().get(other);
    match (first, second) {
        (Some(event), Some(line)) => other_racks(event, line),
        _ => false,
    }
}
