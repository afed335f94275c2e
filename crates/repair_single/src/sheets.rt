//! What a sheet says with a change.
ghost use Rattle.std.specs.Prelude.{◌≡◌, ◌+◌, map, slice_get, IfOk};
ghost use Rattle.gcg_read.specs.Numerals.{IsPoints};
ghost use Rattle.repair_changes.specs.Splices.{spliced};
ghost use Rattle.repair_changes.specs.Applied.{applied};
ghost use Rattle.repair_single.specs.OnSheet.{total_after, score_in, line_on_sheet, on_sheet};

use game_corrections::had_before;
use gcg_read::{Event, Events, Points};
use repair_changes::{Change, Slip, apply};
use std::alloc::{AllocError, Global};

/// The score of the event at a place, or 0 if there is none.
fn score_at(right: &[Event], place: usize) -> Points
    ensures { result ≡ score_in (slice_get right.now place) }
{
    match right.get(place) {
        Some(event) => event.score,
        None => Points::new(0).unwrap(),
    }
}

/// The total that a player has after a missing line with this score.
fn total_after(had: i32, score: Points) -> Points
    requires { IsPoints had }
    ensures { result ≡ total_after had score }
{
    match Points::new(had + score.value()) {
        Some(total) => total,
        None => Points::new(had).unwrap(),
    }
}

/// Gives a missing line the numbers that it would have on the sheet. If there is no line, nothing is changed.
#[tactic(auto, using(crate::proofs::SheetLines::line_written, crate::proofs::SheetLines::none_spliced))]
fn write_line(sheet: &mut Events, place: usize, right: &[Event])
    ensures { sheet.new ≡ spliced place 1 (map (line_on_sheet sheet.old right.now place)) sheet.old }
{
    let events = sheet.as_slice();
    let Some(line) = events.get(place) else {
        return;
    };
    let score = score_at(right, place);
    let total = total_after(had_before(events, line.player, place), score);
    sheet.set_score(place, score);
    sheet.set_total(place, total);
}

/// The events of a record with a change, with the numbers of the sheet, given the same events with the right ones: a missing line has its right score.
///
/// It fails only if memory runs out.
pub fn on_sheet(
    alloc: Global,
    change: &Change,
    events: &[Event],
    right: &[Event],
) -> Result<Events, AllocError>
    ensures { IfOk result (λ sheet. sheet ≡ on_sheet change.now (applied change.now events.now) right.now) }
{
    let mut sheet = apply(alloc, change, events)?;
    if let Slip::Missing(_) = &change.slip {
        write_line(&mut sheet, change.place, right);
    }
    Ok(sheet)
}
