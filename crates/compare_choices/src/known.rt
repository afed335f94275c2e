//! The last totals that two sheets say.
ghost use Rattle.std.specs.Prelude.{◌≡◌};
ghost use Rattle.compare_choices.specs.Known.{written_total, with_line, last_known, flattened, events_on, lacks_on, total_on, IsKnownStanding, IsStandingOn};

use crate::sheets::Sheets;
use compare_alignments::{Lacks, Side, lack_at};
use game_corrections::{Standing, last_total, standing_in, standing_of};
use gcg_drafts::Missing;
use gcg_read::{Event, Points, Seat, same_seat};

/// The total of a line, if it is written.
fn written_total(missing: Missing, event: &Event) -> Option<Points>
    ensures { result ≡ written_total missing event.now }
{
    match missing {
        Missing::Nothing => Some(event.total),
        Missing::Total | Missing::Both => None,
    }
}

/// The total of a player's last line with one more line, if there is a line.
fn with_line(
    last: Option<Option<Points>>,
    player: Seat,
    missing: Missing,
    event: &Event,
) -> Option<Option<Points>>
    ensures { result ≡ with_line last player missing event.now }
{
    if same_seat(event.player, player) {
        Some(written_total(missing, event))
    } else {
        last
    }
}

/// The total of a player's last line, if there is a line; and if it is written.
#[tactic(auto, using(crate::proofs::LastLines::one_more_line, crate::proofs::LastLines::all_lines))]
fn last_known(lacks: &[Missing], events: &[Event], player: Seat) -> Option<Option<Points>>
    ensures { result ≡ last_known player lacks.now events.now }
{
    let mut last = None;
    for place in 0..events.len() {
        let missing = lack_at(lacks, Some(place));
        last = with_line(last, player, missing, &events[place]);
    }
    last
}

/// The total, if there is one.
fn flattened(last: Option<Option<Points>>) -> Option<Points>
    ensures { result ≡ flattened last }
{
    match last {
        Some(total) => total,
        None => None,
    }
}

/// Who has more, by the totals of both last lines; none if one of them is not written.
fn known_standing(first: Option<Option<Points>>, second: Option<Option<Points>>) -> Option<Standing>
    ensures { IsKnownStanding first second result }
{
    match (first, second) {
        (Some(None), _) => None,
        (_, Some(None)) => None,
        _ => Some(standing_of(&flattened(first), &flattened(second))),
    }
}

/// The events of a sheet.
fn events_on(sheets: &Sheets, sheet: Side) -> &[Event]
    ensures { result.now ≡ events_on sheets.now sheet }
{
    match sheet {
        Side::First => sheets.first.events.as_slice(),
        Side::Second => sheets.second.events.as_slice(),
    }
}

/// What its lines lack.
fn lacks_on(lacks: &Lacks, sheet: Side) -> &[Missing]
    ensures { result.now ≡ lacks_on lacks.now sheet }
{
    match sheet {
        Side::First => lacks.first.as_slice(),
        Side::Second => lacks.second.as_slice(),
    }
}

/// The total of a player's last line on a sheet, if it is written.
pub(crate) fn total_on(sheets: &Sheets, sheet: Side, player: Seat) -> Option<Points>
    ensures { result ≡ total_on sheets.now sheet player }
{
    match &sheets.lacks {
        None => last_total(events_on(sheets, sheet), player),
        Some(lacks) => {
            let last = last_known(lacks_on(lacks, sheet), events_on(sheets, sheet), player);
            flattened(last)
        }
    }
}

/// Who is ahead by a sheet; none if a last total is not written on it.
pub(crate) fn standing_on(sheets: &Sheets, sheet: Side) -> Option<Standing>
    ensures { IsStandingOn sheets.now sheet result }
{
    match &sheets.lacks {
        None => Some(standing_in(events_on(sheets, sheet))),
        Some(lacks) => {
            let missing = lacks_on(lacks, sheet);
            let events = events_on(sheets, sheet);
            let first = last_known(missing, events, Seat::First);
            let second = last_known(missing, events, Seat::Second);
            known_standing(first, second)
        }
    }
}
