//! The wrong numbers of a sheet.
ghost use Rattle.std.specs.Prelude.{◌≡◌, ◌≤◌, ◌+ℤ◌, length};
ghost use Rattle.std.specs.Ordering.{int_eq};
ghost use Rattle.gcg_read.specs.Numerals.{IsPoints};
ghost use Rattle.game_corrections.specs.WrongNumbers.{had_before, known_total, due, is_right_sum};

use crate::last_totals::last_total;
use gcg_read::{Event, Points, Seat};

/// A number of a sheet that is wrong, with the right one.
#[derive(Clone, Copy, Debug, PartialEq, Eq)]
pub enum WrongNumber {
    /// A score is not the one that the rules give.
    Score {
        /// The line of its event, counted from 1.
        line: u32,
        /// The score as written.
        written: i32,
        /// The score that the rules give.
        right: i32,
    },
    /// A total is neither the player's last total plus the score, as they are written, nor the right one.
    Sum {
        /// The line of its event, counted from 1.
        line: u32,
        /// The total as written.
        written: i32,
        /// The sum of the player's last total and the score, as they are written.
        sum: i32,
        /// The total by the rules; none from the line on at which the correction stops.
        right: Option<i32>,
    },
    /// The last total of a player is not the right one.
    Total {
        /// The player.
        player: Seat,
        /// The last total as written.
        written: i32,
        /// The last total by the rules.
        right: i32,
    },
}

/// What a sheet says that a player had before a place, counted from 0: the player's last total, or 0 before the first.
pub fn had_before(events: &[Event], player: Seat, place: usize) -> i32
    requires { place ≤ length events.now }
    ensures had { result ≡ had_before events.now player place }
    ensures in_range { IsPoints result }
{
    match last_total(&events[..place], player) {
        Some(total) => total.value(),
        None => 0,
    }
}

/// The right total of an event, as far as the events are corrected: up to the line at which the correction stops, if it does.
pub fn known_total(stop: Option<u32>, right: &Event) -> Option<i32>
    ensures { result ≡ known_total stop right.now }
{
    match stop {
        None => Some(right.total.value()),
        Some(stop) => {
            if right.line < stop {
                Some(right.total.value())
            } else {
                None
            }
        }
    }
}

/// What a total should be: the right one, or the sum of the line if no right one is known.
pub fn due(sum: i32, right: Option<i32>) -> i32
    ensures { result ≡ due sum right }
{
    match right {
        Some(right) => right,
        None => sum,
    }
}

/// Whether a total is the sum of what the player had and the score.
fn is_sum(total: Points, had: i32, score: Points) -> bool
    requires { IsPoints had }
    ensures { result ≡ int_eq total (had +ℤ score) }
{
    total.value() == had + score.value()
}

/// Whether a total is what it should be.
fn is_due(total: Points, had: i32, score: Points, right: Option<i32>) -> bool
    requires { IsPoints had }
    ensures { result ≡ int_eq total (due (had +ℤ score) right) }
{
    match right {
        Some(right) => total.value() == right,
        None => is_sum(total, had, score),
    }
}

/// Whether a written total is right: it is the sum of what the player had and the score, as they are written, or the right total.
pub fn is_right_sum(total: Points, had: i32, score: Points, right: Option<i32>) -> bool
    requires { IsPoints had }
    ensures { result ≡ is_right_sum total (had +ℤ score) right }
{
    is_sum(total, had, score) || is_due(total, had, score, right)
}
