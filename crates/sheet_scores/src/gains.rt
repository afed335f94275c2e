//! How many points more a best play would have given.
ghost use Rattle.std.specs.Prelude.{◌≡◌};
ghost use Rattle.sheet_scores.specs.Gains.{given_by, gain_in};

use game_bests::TurnBest;
use gcg_read::Points;

/// What an event with this score gave: the score, and nothing if the next event takes it back.
pub fn given_by(taken_back: bool, score: Points) -> i32
    ensures { result ≡ given_by taken_back score }
{
    if taken_back { 0 } else { score.value() }
}

/// How many points more the best play of an event would have given: 0 if it would have given as many or fewer, or if it is not known.
pub fn gain_in(best: &TurnBest) -> u64
    ensures { result ≡ gain_in best.now }
{
    match best {
        TurnBest::Best(best) if best.more > 0 => best.more as u64,
        _ => 0,
    }
}
