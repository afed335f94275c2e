//! Whether the sum of a player's last line is among some wrong numbers.
ghost use Rattle.std.specs.Prelude.{◌≡◌};
ghost use Rattle.std.specs.List.{list_any};
ghost use Rattle.game_corrections.specs.WrongNumbers.{is_sum_of, is_reported_on, is_reported};

use crate::last_totals::last_line;
use crate::wrong_numbers::WrongNumber;
use gcg_read::{Event, Seat};

/// Whether a wrong number is the sum of a line.
fn is_sum_of(line: u32, number: &WrongNumber) -> bool
    ensures { result ≡ is_sum_of line number.now }
{
    match number {
        WrongNumber::Sum { line: own, .. } => *own == line,
        WrongNumber::Score { .. } | WrongNumber::Total { .. } => false,
    }
}

/// Whether the sum of a line is among these numbers.
fn has_sum_of(line: u32, numbers: &[WrongNumber]) -> bool
    ensures { result ≡ list_any (is_sum_of line) numbers.now }
{
    for number in numbers {
        if is_sum_of(line, number) {
            return true;
        }
    }
    false
}

/// The same if there is a line.
fn is_reported_on(line: Option<u32>, numbers: &[WrongNumber]) -> bool
    ensures { result ≡ is_reported_on line numbers.now }
{
    match line {
        Some(line) => has_sum_of(line, numbers),
        None => false,
    }
}

/// Whether the sum of a player's last line is among these numbers.
pub fn is_reported(events: &[Event], player: Seat, numbers: &[WrongNumber]) -> bool
    ensures { result ≡ is_reported player events.now numbers.now }
{
    is_reported_on(last_line(events, player), numbers)
}
