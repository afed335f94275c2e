//! The amounts that a challenge or a penalty may have, and the numbers of tiles that may be exchanged.
ghost use Rattle.std.specs.Prelude.{◌≡◌, ◌++◌, ◌≤◌, OnOk};
ghost use Rattle.repair_slips.specs.Amounts.{bonus_for, penalty_of, other_amount, other_bonus, other_penalty, other_bonuses, other_penalties, other_number, other_numbers, exchange_of, exchanges};

use crate::adding::add;
use gcg_read::Points;
use ref_tiles::Rules;
use repair_changes::{CodeSlip, Slip};
use std::alloc::AllocError;

/// The maximum number of words of a challenge whose bonus is tried.
pub(crate) const WORDS: u8 = 8;

/// The maximum number of steps of a penalty that is tried.
pub(crate) const STEPS: u8 = 20;

/// The maximum number of tiles of an exchange.
pub(crate) const TILES: u8 = 7;

/// The bonus for the challenge of a number of words.
pub(crate) fn bonus_for(rules: &Rules, words: u8) -> Points
    requires { words ≤ 8 }
    ensures { result ≡ bonus_for rules.now words }
{
    let bonus = (rules.challenge_unit as u32 * words as u32) as i32;
    Points::new(bonus).unwrap()
}

/// The penalty of a number of steps, as the score of its line.
pub(crate) fn penalty_of(rules: &Rules, steps: u8) -> Points
    requires { steps ≤ 20 }
    ensures { result ≡ penalty_of rules.now steps }
{
    let penalty = (rules.time_step as u32 * steps as u32) as i32;
    Points::new(-penalty).unwrap()
}

/// Adds an amount in place of another one.
fn push_amount(slips: &mut Vec<Slip>, written: Points, right: Points) -> Result<(), AllocError>
    ensures { OnOk result (slips.new.items ≡ slips.old.items ++ other_amount written right) }
{
    if right.value() == written.value() {
        return Ok(());
    }
    add(slips, Slip::Amount(right))
}

/// Adds the bonus for a number of words, if another one is written.
fn push_bonus(
    slips: &mut Vec<Slip>,
    rules: &Rules,
    written: Points,
    words: u8,
) -> Result<(), AllocError>
    requires { words ≤ 8 }
    ensures { OnOk result (slips.new.items ≡ slips.old.items ++ other_bonus rules.now written words) }
{
    push_amount(slips, written, bonus_for(rules, words))
}

/// Adds each other bonus.
#[tactic(auto, unfolding(crate::specs::Amounts::other_bonuses))]
pub(crate) fn push_bonuses(
    slips: &mut Vec<Slip>,
    rules: &Rules,
    written: Points,
) -> Result<(), AllocError>
    ensures { OnOk result (slips.new.items ≡ slips.old.items ++ other_bonuses rules.now written) }
{
    for words in 0..WORDS {
        push_bonus(slips, rules, written, words + 1)?;
    }
    Ok(())
}

/// Adds the penalty of a number of steps, if another one is written.
fn push_penalty(
    slips: &mut Vec<Slip>,
    rules: &Rules,
    written: Points,
    steps: u8,
) -> Result<(), AllocError>
    requires { steps ≤ 20 }
    ensures { OnOk result (slips.new.items ≡ slips.old.items ++ other_penalty rules.now written steps) }
{
    push_amount(slips, written, penalty_of(rules, steps))
}

/// Adds each other penalty.
#[tactic(auto, unfolding(crate::specs::Amounts::other_penalties))]
pub(crate) fn push_penalties(
    slips: &mut Vec<Slip>,
    rules: &Rules,
    written: Points,
) -> Result<(), AllocError>
    ensures { OnOk result (slips.new.items ≡ slips.old.items ++ other_penalties rules.now written) }
{
    for steps in 0..STEPS {
        push_penalty(slips, rules, written, steps + 1)?;
    }
    Ok(())
}

/// Adds an exchange of this number of tiles, if another number is written.
fn push_exchange_of(slips: &mut Vec<Slip>, written: u8, tiles: u8) -> Result<(), AllocError>
    ensures { OnOk result (slips.new.items ≡ slips.old.items ++ other_number written tiles) }
{
    if tiles == written {
        return Ok(());
    }
    add(slips, Slip::Number(tiles))
}

/// Adds an exchange of each other number of tiles.
#[tactic(auto, unfolding(crate::specs::Amounts::other_numbers))]
pub(crate) fn push_numbers(slips: &mut Vec<Slip>, written: u8) -> Result<(), AllocError>
    ensures { OnOk result (slips.new.items ≡ slips.old.items ++ other_numbers written) }
{
    for tiles in 0..TILES {
        push_exchange_of(slips, written, tiles + 1)?;
    }
    Ok(())
}

/// Adds an exchange of each number of tiles.
#[tactic(auto, unfolding(crate::specs::Amounts::exchanges))]
pub(crate) fn push_exchanges(slips: &mut Vec<Slip>) -> Result<(), AllocError>
    ensures { OnOk result (slips.new.items ≡ slips.old.items ++ exchanges) }
{
    for tiles in 0..TILES {
        add(slips, Slip::Code(CodeSlip::Exchange(tiles + 1)))?;
    }
    Ok(())
}
