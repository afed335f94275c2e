//! Events that are refused.
ghost use Rattle.std.specs.Prelude.{◌≡◌};
ghost use Rattle.game_walk.specs.Refusals.{first_refusal, stop_line};

use crate::numbers::Numbers;
use game_turns::RuleFault;

/// An event that the rules do not allow.
#[derive(Clone, Copy, Debug, PartialEq, Eq)]
pub struct Refusal {
    /// The line of the event, counted from 1.
    pub line: u32,
    /// The first check that fails.
    pub why: RuleFault,
}

/// Where a correction stops: at an event that is refused with any numbers that a record can write.
#[derive(Clone, Copy, Debug, PartialEq, Eq)]
pub struct Stop {
    /// The event, and why it is refused.
    pub refusal: Refusal,
    /// The numbers with which it is refused.
    pub numbers: Numbers,
}

/// The first refusal: the earlier one if there is one, otherwise that of this event if it is refused.
pub fn first_refusal(earlier: Option<Refusal>, line: u32, why: Option<RuleFault>) -> Option<Refusal>
    ensures { result ≡ first_refusal earlier line why }
{
    match (earlier, why) {
        (Some(refusal), _) => Some(refusal),
        (None, Some(why)) => Some(Refusal { line, why }),
        (None, None) => None,
    }
}

/// The line of the event at which a correction stops.
pub(crate) fn stop_line(stopped: &Option<Stop>) -> Option<u32>
    ensures { result ≡ stop_line stopped.now }
{
    match stopped {
        Some(stop) => Some(stop.refusal.line),
        None => None,
    }
}
