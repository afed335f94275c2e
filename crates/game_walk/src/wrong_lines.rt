//! The wrong numbers of a sheet, from the written numbers and the events with the right ones.
ghost use Rattle.std.specs.Prelude.{◌≡◌, ◌+◌, ◌++◌, ◌<◌, List, length, OnOk, None, take};
ghost use Rattle.gcg_read.specs.Numerals.{IsPoints};
ghost use Rattle.game_corrections.specs.WrongNumbers.{wrong_score, wrong_sum, known_total, wrong_at, wrong_lines, wrong_total_of, all_wrong};
ghost use Rattle.gcg_read.specs.declared.events.Event.{Event};
ghost use Rattle.game_walk.specs.Numbers.{with_numbers, renumbered};
ghost use Rattle.game_walk.specs.Totals.{HasTotals};

use crate::numbers::Numbers;
use crate::totals::Totals;
use game_corrections::{WrongNumber, is_reported, is_right_sum, known_total, last_total};
use gcg_read::{Event, Points, Seat};
use std::alloc::AllocError;

/// Adds the score of an event, if it is not the right one.
fn push_score(wrong: &mut Vec<WrongNumber>, own: &Numbers, right: &Event) -> Result<(), AllocError>
    ensures { OnOk result (wrong.new.items ≡ wrong.old.items ++ wrong_score (with_numbers right.now own.now) right.now) }
{
    if own.score.value() != right.score.value() {
        wrong.push(WrongNumber::Score {
            line: right.line,
            written: own.score.value(),
            right: right.score.value(),
        })?;
    }
    Ok(())
}

/// Adds the total of an event, if it is neither what the player had plus the score nor the right one.
fn push_sum(
    wrong: &mut Vec<WrongNumber>,
    own: &Numbers,
    event: &Event,
    had: i32,
    right: Option<i32>,
) -> Result<(), AllocError>
    requires { IsPoints had }
    ensures { OnOk result (wrong.new.items ≡ wrong.old.items ++ wrong_sum had (with_numbers event.now own.now) right) }
{
    if is_right_sum(own.total, had, own.score, right) {
        return Ok(());
    }
    wrong.push(WrongNumber::Sum {
        line: event.line,
        written: own.total.value(),
        sum: had + own.score.value(),
        right,
    })?;
    Ok(())
}

/// Adds what is wrong at a place, and records the total written there.
#[tactic(auto, using(crate::proofs::WrongRows::both_wrong))]
fn push_wrong(
    wrong: &mut Vec<WrongNumber>,
    totals: &mut Totals,
    stop: Option<u32>,
    numbers: &[Numbers],
    right: &[Event],
    place: usize,
) -> Result<(), AllocError>
    requires numbers { place < length numbers.now }
    requires right { place < length right.now }
    requires totals { HasTotals (take place (renumbered right.now numbers.now)) totals.old }
    ensures wrong { OnOk result (wrong.new.items ≡ wrong.old.items ++ wrong_at stop (renumbered right.now numbers.now) right.now place) }
    ensures totals { OnOk result (HasTotals (take (place + 1) (renumbered right.now numbers.now)) totals.new) }
{
    let own = &numbers[place];
    let event = &right[place];
    push_score(wrong, own, event)?;
    let due = known_total(stop, event);
    push_sum(wrong, own, event, totals.had(event.player), due)?;
    totals.note(event, own);
    Ok(())
}

/// Adds the wrong scores and sums, in the order of the sheet, compared with events that are corrected up to a line, or with a correction. It
/// returns the last written totals.
pub fn push_lines(
    wrong: &mut Vec<WrongNumber>,
    totals: &mut Totals,
    stop: Option<u32>,
    numbers: &[Numbers],
    right: &[Event],
) -> Result<(), AllocError>
    requires many { length numbers.now ≡ length right.now }
    requires first { totals.old.first ≡ None }
    requires second { totals.old.second ≡ None }
    ensures wrong { OnOk result (wrong.new.items ≡ wrong.old.items ++ wrong_lines stop (renumbered right.now numbers.now) right.now) }
    ensures totals { OnOk result (HasTotals (renumbered right.now numbers.now) totals.new) }
{
    for place in 0..right.len() {
        push_wrong(wrong, totals, stop, numbers, right, place)?;
    }
    Ok(())
}

/// Adds the last total of a player, if it is not the right one and its line does not tell it.
fn push_total(
    wrong: &mut Vec<WrongNumber>,
    player: Seat,
    reported: bool,
    written: Option<Points>,
    right: Option<Points>,
) -> Result<(), AllocError>
    ensures { OnOk result (wrong.new.items ≡ wrong.old.items ++ wrong_total_of player reported written right) }
{
    let (Some(written), Some(right)) = (written, right) else {
        return Ok(());
    };
    if reported || written.value() == right.value() {
        return Ok(());
    }
    wrong.push(WrongNumber::Total {
        player,
        written: written.value(),
        right: right.value(),
    })?;
    Ok(())
}

/// Adds the last totals that are not the right ones, but for those whose lines are among the wrong numbers.
pub fn push_totals(
    wrong: &mut Vec<WrongNumber>,
    totals: &Totals,
    right: &[Event],
) -> Result<(), AllocError>
    ensures { OnOk result ((written : List Event) → HasTotals written totals.now → wrong.new.items ≡ all_wrong wrong.old.items written right.now) }
{
    let first = is_reported(right, Seat::First, wrong.as_slice());
    let second = is_reported(right, Seat::Second, wrong.as_slice());
    push_total(
        wrong,
        Seat::First,
        first,
        totals.of(Seat::First),
        last_total(right, Seat::First),
    )?;
    push_total(
        wrong,
        Seat::Second,
        second,
        totals.of(Seat::Second),
        last_total(right, Seat::Second),
    )
}
