//! How many points the players left on the board.
ghost use Rattle.std.specs.Prelude.{◌≡◌, Some, length};
ghost use Rattle.sheet_scores.specs.Gains.{gain_of, gains_to, IsGain};
ghost use Rattle.game_answers.specs.Leaving.{best_of, AreRemaining};

use crate::answers::EventAnswer;
use gcg_read::{Event, Seat, same_seat};
use sheet_scores::gain_in;

/// What is answered for the events of a record in which the rules allow every event.
#[derive(Drop)]
pub struct GameAnswers {
    /// The answer of each event, in their order.
    pub events: Vec<EventAnswer>,
    /// How many points more the best plays of the first player's turns would have given in all, where a turn whose best play would have given fewer
    /// counts as 0; none exactly if that is 2^64 or more.
    pub remaining_first: Option<u64>,
    /// The same for the other player.
    pub remaining_second: Option<u64>,
}

/// How many points more the best play of an event of a player would have given, and 0 for other events.
fn remaining_of(player: Seat, event: &Event, answer: &EventAnswer) -> u64
    ensures { result ≡ gain_of player (Some event.now) (Some answer.now.best) }
{
    if same_seat(event.player, player) {
        gain_in(&answer.best)
    } else {
        0
    }
}

/// How many points more the best plays of a player's turns would have given in all. None exactly if that is 2^64 or more.
#[tactic(auto, using(sheet_scores::proofs::GainLaws::gains_none, crate::proofs::RemainingLaws::remaining_more, crate::proofs::RemainingLaws::remaining_in_all, crate::proofs::RemainingLaws::remaining_too_many))]
fn points_remaining(player: Seat, events: &[Event], answers: &[EventAnswer]) -> Option<u64>
    requires { length answers.now ≡ length events.now }
    ensures { IsGain (gains_to player events.now (best_of answers.now) (length events.now)) result }
{
    let mut remaining: u64 = 0;
    for place in 0..events.len() {
        let more = remaining_of(player, &events[place], &answers[place]);
        let Some(sum) = remaining.checked_add(more) else {
            return None;
        };
        remaining = sum;
    }
    Some(remaining)
}

/// The answers of events, with how many points both players left.
pub(crate) fn with_remaining(events: &[Event], answers: Vec<EventAnswer>) -> GameAnswers
    requires { length answers.items ≡ length events.now }
    ensures events { result.events.items ≡ answers.items }
    ensures remaining { AreRemaining events.now result }
{
    let remaining_first = points_remaining(Seat::First, events, answers.as_slice());
    let remaining_second = points_remaining(Seat::Second, events, answers.as_slice());
    GameAnswers {
        events: answers,
        remaining_first,
        remaining_second,
    }
}
