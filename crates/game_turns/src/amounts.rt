//! Points of racks, and which amounts a bonus or a time penalty may have.
ghost use Rattle.std.specs.Prelude.{◌≡◌, ◌<◌, ◌≤◌, pos};
ghost use Rattle.gcg_read.specs.Numerals.{IsPoints};
ghost use Rattle.game_turns.specs.Checks.{most_points, points_in, is_bonus, is_bonus_for, is_penalty};

use ref_tiles::{Counts, Kind, Letter, Rules};

/// The points of tiles; blanks have none.
#[tactic(auto, unfolding(crate::specs::Checks::points_in))]
pub fn points_in(rules: &Rules, tiles: &Counts) -> u32
    ensures points { result ≡ points_in rules.now tiles.now }
    ensures limit { result ≤ most_points }
{
    let mut points = 0;
    for index in 0..26 {
        let kind = Kind::Letter(Letter { index });
        points += tiles.count(kind) as u32 * rules.points_of(kind) as u32;
    }
    points
}

/// Whether an amount is the bonus for 1, 2 or more words, up to `words`.
#[tactic(auto, unfolding(crate::specs::Checks::is_bonus))]
pub fn is_bonus(unit: u8, words: usize, amount: i32) -> bool
    requires { words ≤ 8 }
    ensures { result ≡ is_bonus unit words amount }
{
    amount >= 0 && is_bonus_for(unit, words, amount as u32)
}

fn is_bonus_for(unit: u8, words: usize, amount: u32) -> bool
    requires { words ≤ 8 }
    ensures { result ≡ is_bonus_for unit words amount }
{
    for number in 1..words + 1 {
        if amount == unit as u32 * number as u32 {
            return true;
        }
    }
    false
}

/// Whether an amount is a negative multiple of the step.
#[tactic(auto, unfolding(crate::specs::Checks::is_penalty))]
pub fn is_penalty(step: u8, amount: i32) -> bool
    requires step { 0 < step }
    requires range { IsPoints amount }
    ensures { result ≡ is_penalty step amount }
{
    amount < 0 && (-amount) as u32 % step as u32 == 0
}
