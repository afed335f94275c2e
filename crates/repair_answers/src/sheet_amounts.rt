//! A bonus or a penalty that would explain a wrong total of a sheet.
ghost use Rattle.std.specs.Prelude.{IfOk};
ghost use Rattle.lex_check.specs.Pairs.{list_in};
ghost use Rattle.repair_answers.specs.Amounts.{IsAmountOfRecord, IsAmountOnSheet};

use crate::amounts::amount_repair;
use engine_stages::record_from;
use game_corrections::WrongNumber;
use gcg_read::Record;
use lex_check::Checked;
use ref_tiles::Rules;
use repair_single::Repair;
use std::alloc::{AllocError, Global};

/// A record, and the bonus or the penalty that would explain its numbers.
#[derive(Drop)]
pub struct SheetAmount {
    /// The record as it is written.
    pub record: Record,
    /// The first repair of the record: one of a bonus or a penalty, which costs less than correcting only the numbers.
    pub repair: Repair,
}

/// Whether points are some units, more or less than none.
fn are_units(points: i64, unit: u8) -> bool {
    points != 0 && unit != 0 && points % unit as i64 == 0
}

/// Whether a total is off by some bonuses for a word or some steps of time.
fn is_off_by_units(rules: &Rules, wrong: &WrongNumber) -> bool {
    match wrong {
        WrongNumber::Sum { written, sum, .. } => {
            let off = *written as i64 - *sum as i64;
            are_units(off, rules.challenge_unit) || are_units(off, rules.time_step)
        }
        WrongNumber::Score { .. } | WrongNumber::Total { .. } => false,
    }
}

/// The bonus or the penalty that would explain the numbers of a record.
fn amount_in(
    alloc: Global,
    rules: &Rules,
    pair: &Checked<'_>,
    game: Record,
) -> Result<Option<SheetAmount>, AllocError>
    ensures { IfOk result (IsAmountOfRecord rules.now (list_in pair.now) game) }
{
    let mut game = game;
    match amount_repair(alloc, rules, pair, &mut game)? {
        Some(repair) => Ok(Some(SheetAmount {
            record: game,
            repair,
        })),
        None => Ok(None),
    }
}

/// The bonus or the penalty that would explain the numbers of the record of a text, as [`amount_repair`] finds it, if one of these wrong totals is off by
/// some bonuses for a word or some steps of time.
///
/// That one is found is tested, not promised.
///
/// # Errors
///
/// Memory was refused.
pub fn amount_on_sheet(
    alloc: Global,
    rules: &Rules,
    pair: &Checked<'_>,
    text: &[u8],
    wrong: &[WrongNumber],
) -> Result<Option<SheetAmount>, AllocError>
    ensures { IfOk result (IsAmountOnSheet rules.now (list_in pair.now) text.now) }
{
    if !wrong.iter().any(|number| is_off_by_units(rules, number)) {
        return Ok(None);
    }
    match record_from(alloc, text)? {
        Ok(game) => amount_in(alloc, rules, pair, game),
        Err(_) => Ok(None),
    }
}
