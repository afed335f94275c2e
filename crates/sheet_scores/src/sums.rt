//! How many points more the best plays of a sheet would have given.
ghost use Rattle.std.specs.Prelude.{◌≡◌, length, slice_get};
ghost use Rattle.std.specs.Option.{option_copied};
ghost use Rattle.sheet_scores.specs.Gains.{known_gain, gain_of, gains_to, IsGain};
ghost use Rattle.sheet_scores.specs.Sums.{best_in, best_of};

use crate::gains::gain_in;
use crate::rows::SheetRow;
use game_bests::TurnBest;
use gcg_read::{Event, Seat, same_seat};

/// The event at a place, if there is one.
#[tactic(auto, using(game_turns::proofs::PlaceLaws::copied_get))]
fn event_at(events: &[Event], place: usize) -> Option<&Event>
    ensures { option_copied result ≡ slice_get events.now place }
{
    events.get(place)
}

/// The row at a place, if there is one.
#[tactic(auto, using(crate::proofs::SheetRows::copied_sheet_row))]
fn row_at(rows: &[SheetRow], place: usize) -> Option<&SheetRow>
    ensures { option_copied result ≡ slice_get rows.now place }
{
    rows.get(place)
}

/// How many points more the best play would have given, or 0 if it is not known.
fn known_gain(best: &Option<TurnBest>) -> u64
    ensures { result ≡ known_gain best.now }
{
    match best {
        Some(best) => gain_in(best),
        None => 0,
    }
}

/// The same for the best play of a row, and 0 if there is no row.
fn gain_in_row(row: Option<&SheetRow>) -> u64
    ensures { result ≡ known_gain (best_in (option_copied row.entry)) }
{
    match row {
        Some(row) => known_gain(&row.best),
        None => 0,
    }
}

/// The same for an event of a player with its row, and 0 for other events.
fn gain_of(player: Seat, event: Option<&Event>, row: Option<&SheetRow>) -> u64
    ensures { result ≡ gain_of player (option_copied event.entry) (best_in (option_copied row.entry)) }
{
    match event {
        Some(event) if same_seat(event.player, player) => gain_in_row(row),
        _ => 0,
    }
}

/// How many points more the best plays of a player's events would have given in all. None exactly if that is 2^64 or more.
#[tactic(auto, using(crate::proofs::GainLaws::gains_none, crate::proofs::GainLaws::gains_more, crate::proofs::GainLaws::too_many))]
pub fn gains_of(player: Seat, events: &[Event], rows: &[SheetRow]) -> Option<u64>
    ensures { IsGain (gains_to player events.now (best_of rows.now) (length events.now)) result }
{
    let mut gains = 0_u64;
    for place in 0..events.len() {
        let more = gain_of(player, event_at(events, place), row_at(rows, place));
        let Some(sum) = gains.checked_add(more) else {
            return None;
        };
        gains = sum;
    }
    Some(gains)
}
