//! Repairs that only avoid a word that is not in the list, in a record that was perhaps played with another one.
ghost use Rattle.std.specs.Prelude.{◌≡◌, filter};
ghost use Rattle.repair_answers.specs.Trades.{is_trade, rights_none, avoids_word, is_reported};

use crate::numbers_alone::NumbersAlone;
use repair_changes::{Slip, SpellingSlip, WORDS_OF_SLIPS};
use repair_single::Repair;

/// Whether two letters of a word are in each other's place.
fn is_trade(slip: &Slip) -> bool
    ensures { result ≡ is_trade slip.now }
{
    match slip {
        Slip::Spelling(SpellingSlip::Twisted { .. }) => true,
        _ => false,
    }
}

/// Whether a repair leaves as many numbers wrong as there are if only the numbers are.
fn rights_none(alone: &NumbersAlone, repair: &Repair) -> bool
    ensures { result ≡ rights_none alone.now repair.now }
{
    repair.remains.wrong.len() >= alone.remains.wrong.len()
}

/// Whether more words are not in the list than come from slips, and all that a repair does is to avoid one by letters that trade places.
fn avoids_word(alone: &NumbersAlone, repair: &Repair) -> bool
    ensures { result ≡ avoids_word alone.now repair.now }
{
    alone.remains.unlisted.len() > WORDS_OF_SLIPS
        && is_trade(&repair.listed.change.slip)
        && rights_none(alone, repair)
}

/// Whether a repair is listed: it is not one that only avoids a word.
fn is_reported(alone: &Option<NumbersAlone>, repair: &Repair) -> bool
    ensures { result ≡ is_reported alone.now repair.now }
{
    match alone {
        Some(alone) => !avoids_word(alone, repair),
        None => true,
    }
}

/// Keeps only the repairs that are listed.
pub(crate) fn keep_reported(alone: &Option<NumbersAlone>, repairs: &mut Vec<Repair>)
    ensures { repairs.new.items ≡ filter (is_reported alone.now) repairs.old.items }
{
    repairs.retain(|repair| is_reported(alone, repair));
}
