//! The parts of rules, and their limits.
ghost use Rattle.std.specs.Prelude.{◌≡◌, ◌≤◌, ◌↔◌, IsTrue, IsSome, IfSome};
ghost use Rattle.std.specs.List.{list_all};
ghost use Rattle.ref_tiles.specs.Limits.{is_tile_set, are_points, is_bonus, is_parameter};
ghost use Rattle.ref_tiles.specs.Parts.{are_in_limits, parts_of};

use crate::counting::Counts;
use crate::premiums::Premium;
use crate::rulebook::{Rules, SQUARES};

/// The fewest tiles of a game: two full racks.
const MIN_TILES: usize = 14;

/// The most tiles of a game.
const MAX_TILES: usize = 200;

/// The most points of a letter.
const MAX_POINTS: u8 = 99;

/// The greatest bonus of a play of seven tiles.
pub const MAX_BONUS: u16 = 999;

/// The parts of [`Rules`], which may be outside their limits.
#[derive(Clone, Copy, Debug, PartialEq, Eq)]
pub struct RuleParts {
    /// The number of tiles of each kind.
    pub counts: Counts,
    /// The points of A to Z.
    pub points: [u8; 26],
    /// The premiums of the squares, row by row from 1A.
    pub premiums: [Premium; SQUARES],
    /// The bonus for a play of seven tiles.
    pub bonus: u16,
    /// The number of tiles that the bag must have for an exchange.
    pub exchange_min: u8,
    /// The number of successive turns without a play on the board after which the game may end.
    pub zero_limit: u8,
    /// The points that an unsuccessful challenge gives for each word that it names.
    pub challenge_unit: u8,
    /// The number of which each time penalty is a multiple.
    pub time_step: u8,
}

/// Whether a tile set has 14 to 200 tiles.
#[tactic(auto, unfolding(crate::specs::Limits::most_tiles))]
fn is_tile_set(counts: &Counts) -> bool
    ensures { result ≡ is_tile_set counts.now }
{
    let total = counts.total();
    MIN_TILES <= total && total <= MAX_TILES
}

/// Whether each letter has at most 99 points.
fn are_points(points: &[u8]) -> bool
    ensures { result ≡ are_points points.now }
{
    points.iter().all(|points| *points <= MAX_POINTS)
}

/// Whether one of the four small numbers is within its limits.
fn is_parameter(number: u8) -> bool
    ensures { result ≡ is_parameter number }
{
    1 <= number && number <= 99
}

impl Rules {
    /// The rules with these parts, given exactly when there are 14 to 200 tiles, each letter has at most 99 points, the bonus is at
    /// most 999, and the other four numbers are 1 to 99.
    pub fn checked(parts: RuleParts) -> Option<Rules>
        ensures limits { IsSome result ↔ IsTrue (are_in_limits parts) }
        ensures parts { IfSome result (λ rules. parts_of rules ≡ parts) }
    {
        if !is_tile_set(&parts.counts) || !are_points(&parts.points) || parts.bonus > MAX_BONUS {
            return None;
        }
        if !is_parameter(parts.exchange_min)
            || !is_parameter(parts.zero_limit)
            || !is_parameter(parts.challenge_unit)
            || !is_parameter(parts.time_step)
        {
            return None;
        }
        Some(Rules {
            counts: parts.counts,
            points: parts.points,
            premiums: parts.premiums,
            bonus: parts.bonus,
            exchange_min: parts.exchange_min,
            zero_limit: parts.zero_limit,
            challenge_unit: parts.challenge_unit,
            time_step: parts.time_step,
        })
    }

    /// The parts of these rules, from which [`Rules::checked`] makes them again.
    pub fn parts(&self) -> RuleParts
        ensures { result ≡ parts_of self.now }
    {
        let points = self.points;
        let premiums = self.premiums;
        RuleParts {
            counts: self.counts,
            points,
            premiums,
            bonus: self.bonus,
            exchange_min: self.exchange_min,
            zero_limit: self.zero_limit,
            challenge_unit: self.challenge_unit,
            time_step: self.time_step,
        }
    }
}
