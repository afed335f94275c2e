//! How many numbers a sheet has with a slip.
ghost use Rattle.std.specs.Prelude.{◌≡◌};
ghost use Rattle.repair_changes.specs.Numbers.{leaves_out, numbers_with, numbers_with_both};

use crate::slips::Slip;

/// Whether a line that should not be there is left out.
pub fn leaves_out(slip: &Slip) -> bool
    ensures { result ≡ leaves_out slip.now }
{
    match slip {
        Slip::Repeated | Slip::ExtraPass | Slip::Extra => true,
        _ => false,
    }
}

/// How many numbers a sheet of `events` events has with a slip: a score and a total on each line, except one that should not be there.
pub fn numbers_with(slip: &Slip, events: usize) -> u128
    ensures { result ≡ numbers_with slip.now events }
{
    if leaves_out(slip) {
        2 * events.saturating_sub(1) as u128
    } else {
        2 * events as u128
    }
}

/// How many numbers a sheet of `events` events has with two slips.
pub fn numbers_with_both(first: &Slip, second: &Slip, events: usize) -> u128
    ensures { result ≡ numbers_with_both first.now second.now events }
{
    if leaves_out(first) {
        numbers_with(second, events.saturating_sub(1))
    } else {
        numbers_with(second, events)
    }
}
