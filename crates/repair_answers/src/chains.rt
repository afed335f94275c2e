//! Several changes that repair a record that nothing simpler is likely to repair.
ghost use Rattle.std.specs.Prelude.{◌≡◌, IfOk, OnOk};
ghost use Rattle.lex_check.specs.Pairs.{list_in};
ghost use Rattle.repair_answers.specs.Chains.{IsChosen, IsChainOf};

use crate::answers::Faulty;
use crate::choices::cost_of;
use game_case::Entry;
use gcg_read::ReadFault;
use lex_check::Checked;
use ref_tiles::Rules;
use repair_changes::NUMBER;
use repair_pairs::{Chain, find_chain};
use std::alloc::{AllocError, Global};

/// The smaller of two costs, of which there may be none.
fn least(cost: Option<u128>, other: Option<u128>) -> Option<u128> {
    match (cost, other) {
        (Some(cost), Some(other)) => Some(cost.min(other)),
        (Some(cost), None) => Some(cost),
        (None, other) => other,
    }
}

/// What the likeliest costs of one change, two changes, a slip of the whole sheet, and correcting only the numbers; `None` if none of them makes the record
/// a game.
fn least_cost(faulty: &Faulty) -> Option<u128> {
    let single = match faulty.found.reported.as_slice() {
        [first, ..] => Some(cost_of(first)),
        [] => None,
    };
    let pair = match faulty.pairs.reported.as_slice() {
        [first, ..] => Some(first.cost),
        [] => None,
    };
    let alone = match &faulty.alone {
        Some(alone) => Some(alone.cost()),
        None => None,
    };
    let sheet = match faulty.sheets.as_slice() {
        [first, ..] => Some(first.cost),
        [] => None,
    };
    least(least(single, sheet), least(pair, alone))
}

/// Whether several changes are looked for: if no change is left open, and nothing simpler makes the record a game, or only with more than two wrong numbers.
fn is_open(faulty: &Faulty, least: Option<u128>) -> bool {
    if !faulty.found.remaining.is_empty() {
        return false;
    }
    match least {
        Some(least) => least > 2 * NUMBER,
        None => true,
    }
}

/// A chain, if it costs less than what is simpler.
fn if_less(found: Option<Chain>, least: Option<u128>) -> Option<Chain>
    ensures { IsChosen found result }
{
    match (&found, least) {
        (Some(chain), Some(least)) if chain.cost() >= least => None,
        _ => found,
    }
}

/// The changes that repair the record that was read one after the other, if they are likelier than anything simpler. Afterwards the record is as it was.
pub(crate) fn chain_of(
    alloc: Global,
    rules: &Rules,
    pair: &Checked<'_>,
    read: &mut Result<Entry, ReadFault>,
    faulty: &Option<Faulty>,
) -> Result<Option<Chain>, AllocError>
    ensures chain { IfOk result (IsChainOf read.old rules.now (list_in pair.now)) }
    ensures same { OnOk result (read.new ≡ read.old) }
{
    let Some(faulty) = faulty else {
        return Ok(None);
    };
    let least = least_cost(faulty);
    if !is_open(faulty, least) {
        return Ok(None);
    }
    match read {
        Ok(entry) => {
            let found = find_chain(alloc, rules, pair.list(), &mut entry.record.events)?;
            Ok(if_less(found, least))
        }
        Err(_) => Ok(None),
    }
}
