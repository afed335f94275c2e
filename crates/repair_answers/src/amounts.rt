//! A bonus or a penalty that would explain wrong numbers.
ghost use Rattle.std.specs.Prelude.{◌≡◌, IfOk, OnOk};
ghost use Rattle.lex_check.specs.Pairs.{list_in};
ghost use Rattle.repair_answers.specs.Amounts.{is_of_amount, explains, IsAmountOf, IsAmount};

use crate::answers::below_of;
use crate::choices::cost_of;
use crate::lists::limit_within;
use crate::no_change::unchanged;
use crate::numbers_alone::NumbersAlone;
use crate::singles::first_repairs;
use game_walk::walk_as_written;
use gcg_read::Record;
use lex_check::Checked;
use ref_tiles::Rules;
use repair_changes::{MissingLine, Slip};
use repair_single::{Found, Repair};
use std::alloc::{AllocError, Global};

/// How many steps the search may take at least: about as many as the events that it goes over.
const STEPS: u64 = 500_000;

/// Whether a slip is one of a bonus for a challenge or of a penalty for time: it is missing, or it is another amount.
fn is_of_amount(slip: &Slip) -> bool
    ensures { result ≡ is_of_amount slip.now }
{
    match slip {
        Slip::Amount(_) => true,
        Slip::Missing(MissingLine::Challenge { .. }) => true,
        Slip::Missing(MissingLine::Time { .. }) => true,
        _ => false,
    }
}

/// Whether a repair is one of a bonus or a penalty, and costs less than correcting only the numbers, if that is possible.
fn explains(alone: &Option<NumbersAlone>, repair: &Repair) -> bool
    ensures { result ≡ explains alone.now repair.now }
{
    if !is_of_amount(&repair.listed.change.slip) {
        return false;
    }
    match alone {
        Some(alone) => cost_of(repair) < alone.cost(),
        None => true,
    }
}

/// The first of the repairs that were found, if it is one of a bonus or a penalty, and costs less than correcting only the numbers.
fn amount_among(alone: &Option<NumbersAlone>, found: Found) -> Option<Repair>
    ensures { IsAmountOf alone.now found.reported.items result }
{
    match found.reported.into_iter().next() {
        Some(first) if explains(alone, &first) => Some(first),
        _ => None,
    }
}

/// The first repair of a record, if it is one of a bonus or a penalty and, where the record is a game once its numbers are corrected, costs less than
/// that: so a wrong total may not be wrong. Each change is tried if the changes, each counted once for each event, are no more than 500,000. Afterwards the
/// record is as it was.
///
/// It fails only if memory runs out.
pub fn amount_repair(
    alloc: Global,
    rules: &Rules,
    pair: &Checked<'_>,
    game: &mut Record,
) -> Result<Option<Repair>, AllocError>
    ensures amount { IfOk result (IsAmount rules.now (list_in pair.now) game.old.events) }
    ensures same { OnOk result (game.new ≡ game.old) }
{
    let list = pair.list();
    let alone = unchanged(alloc, rules, list, game)?;
    let below = below_of(&alone);
    let walk = walk_as_written(alloc, rules, list, &mut game.events)?;
    let events = game.events.as_slice();
    let limit = limit_within(alloc, rules, list, &walk, events, STEPS)?;
    let singles = first_repairs(alloc, rules, pair, &walk, events, &alone, below, 1, limit)?;
    Ok(amount_among(&alone, singles.found))
}
