//! Assembles rules from the statements of a whole text.
ghost use Rattle.std.specs.Prelude.{◌≡◌, ◌<◌, false, IfSome, IfNone};
ghost use Rattle.ref_tiles.specs.Limits.{is_tile_set, are_points, is_bonus, is_parameter};
ghost use Rattle.ref_tiles.specs.Parts.{are_in_limits};
ghost use Rattle.ref_tiles.specs.RulesTexts.{Gives, ended, entry_at, count_in, points_in, premium_in, number_in, counts_with, points_with, premiums_with, parts_with};

use crate::counting::{Counts, KINDS};
use crate::drafts::Draft;
use crate::parts::{MAX_BONUS, RuleParts};
use crate::premiums::Premium;
use crate::rulebook::{Rules, SIDE, SQUARES};
use crate::rules_faults::{RulesFault, RulesWhy};
use crate::statements::{
    BONUS, CHALLENGE_UNIT, EXCHANGE_MIN, Entry, FIRST_ROW, TIME_STEP, ZERO_LIMIT,
};

/// The number of letters that have points.
const LETTERS: usize = 26;

/// The number as a byte, if it is one.
fn byte(number: u32) -> Option<u8>
    ensures byte { IfSome result (λ byte. byte ≡ number) }
    ensures over { IfNone result (255 < number) }
{
    if number < 256 {
        Some(number as u8)
    } else {
        None
    }
}

/// The number of tiles of a kind that an entry states.
fn count_in(entry: Option<Entry>) -> u32
    ensures { result ≡ count_in entry }
{
    match entry {
        Some(Entry::Tile { count, .. }) => count,
        _ => 0,
    }
}

/// The points of a tile that an entry states.
fn points_in(entry: Option<Entry>) -> u32
    ensures { result ≡ points_in entry }
{
    match entry {
        Some(Entry::Tile { points, .. }) => points,
        _ => 0,
    }
}

/// The premium of a column that an entry states.
fn premium_in(entry: Option<Entry>, column: usize) -> Premium
    requires { column < 15 }
    ensures { result ≡ premium_in entry column }
{
    match entry {
        Some(Entry::Row(premiums)) => premiums[column],
        _ => Premium::Plain,
    }
}

/// The number that an entry states.
fn number_in(entry: Option<Entry>) -> u32
    ensures { result ≡ number_in entry }
{
    match entry {
        Some(Entry::Number(number)) => number,
        _ => 0,
    }
}

/// The tiles of each kind; none if a number is past all limits.
#[tactic(auto, using(crate::proofs::PartLimits::count_tiles))]
fn counts(draft: &Draft) -> Option<Counts>
    ensures counts { IfSome result (λ counts. counts ≡ counts_with draft.now) }
    ensures refused { IfNone result (is_tile_set (counts_with draft.now) ≡ false) }
{
    let mut counts = [0; KINDS];
    for kind in 0..KINDS {
        let Some(count) = byte(count_in(draft.at(kind))) else {
            return None;
        };
        counts[kind] = count;
    }
    Some(Counts::of(counts))
}

/// The points of A to Z; none if a number is past all limits.
#[tactic(auto, using(crate::proofs::PartLimits::count_points))]
fn points(draft: &Draft) -> Option<[u8; LETTERS]>
    ensures points { IfSome result (λ points. points ≡ points_with draft.now) }
    ensures refused { IfNone result (are_points (points_with draft.now) ≡ false) }
{
    let mut points = [0; LETTERS];
    for letter in 0..LETTERS {
        let Some(worth) = byte(points_in(draft.at(letter))) else {
            return None;
        };
        points[letter] = worth;
    }
    Some(points)
}

/// The premiums of the squares, row by row.
fn premiums(draft: &Draft) -> [Premium; SQUARES]
    ensures { result ≡ premiums_with draft.now }
{
    let mut premiums = [Premium::Plain; SQUARES];
    for square in 0..SQUARES {
        premiums[square] = premium_in(draft.at(FIRST_ROW + square / SIDE), square % SIDE);
    }
    premiums
}

/// The bonus; none if it is past all limits.
fn bonus(draft: &Draft) -> Option<u16>
    ensures bonus { IfSome result (λ n. n ≡ number_in (entry_at draft.now 42)) }
    ensures refused { IfNone result (is_bonus (number_in (entry_at draft.now 42)) ≡ false) }
{
    let number = number_in(draft.at(BONUS));
    if number > MAX_BONUS as u32 {
        return None;
    }
    Some(number as u16)
}

/// Another parameter; none if it is past all limits.
fn parameter(draft: &Draft, item: usize) -> Option<u8>
    requires { item < 47 }
    ensures number { IfSome result (λ n. n ≡ number_in (entry_at draft.now item)) }
    ensures refused { IfNone result (is_parameter (number_in (entry_at draft.now item)) ≡ false) }
{
    byte(number_in(draft.at(item)))
}

/// The parts of rules that a draft states; none if a number is past all limits.
#[tactic(auto, using(crate::proofs::PartLimits::refusals))]
fn parts(draft: &Draft) -> Option<RuleParts>
    ensures parts { IfSome result (λ parts. parts ≡ parts_with draft.now) }
    ensures refused { IfNone result (are_in_limits (parts_with draft.now) ≡ false) }
{
    let counts = counts(draft)?;
    let points = points(draft)?;
    let bonus = bonus(draft)?;
    let exchange_min = parameter(draft, EXCHANGE_MIN)?;
    let zero_limit = parameter(draft, ZERO_LIMIT)?;
    let challenge_unit = parameter(draft, CHALLENGE_UNIT)?;
    let time_step = parameter(draft, TIME_STEP)?;
    Some(RuleParts {
        counts,
        points,
        premiums: premiums(draft),
        bonus,
        exchange_min,
        zero_limit,
        challenge_unit,
        time_step,
    })
}

/// The rules that a draft states, or what is wrong with it.
#[tactic(auto, using(crate::proofs::PartLimits::endings))]
pub fn finish(draft: &Draft) -> Result<Rules, RulesFault>
    ensures { Gives result (ended draft.now) }
{
    if !draft.is_whole() {
        return Err(RulesFault {
            line: 0,
            why: RulesWhy::Missing,
        });
    }
    let Some(parts) = parts(draft) else {
        return Err(RulesFault {
            line: 0,
            why: RulesWhy::Limits,
        });
    };
    let Some(rules) = Rules::checked(parts) else {
        return Err(RulesFault {
            line: 0,
            why: RulesWhy::Limits,
        });
    };
    Ok(rules)
}
