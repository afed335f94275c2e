//! Whether the first repair, or the record with only its numbers corrected, is the likeliest by far.
ghost use Rattle.std.specs.Prelude.{◌≡◌, ◌⊎◌, ◌↔◌, ◌≤◌, ◌+◌, All, IsTrue, IsFalse, true, [], None};
ghost use Rattle.repair_answers.specs.Alike.{cost_in};
ghost use Rattle.repair_answers.specs.Choices.{says_less, leaves_out_tile, says_less_slip, IsAheadOf, HasRival, IsAheadOfNumbers, LeadsRepairs, LeadsPairs, Lead, IsGameAlone, all_known, IsChoice};

use crate::alike::same_tile;
use crate::answers::Faulty;
use crate::numbers_alone::NumbersAlone;
use crate::sheet_choices::with_sheets;
use crate::sheet_repair::SheetRepair;
use repair_changes::{NUMBER, Slip, TileSlip, TilesOf};
use repair_pairs::Pair;
use repair_single::{Found, Repair};

/// Whether one repair is to be chosen.
#[derive(Clone, Copy)]
pub enum Choice<'a> {
    /// There is no repair.
    None,
    /// Some changes were not tried, or it is not known of them whether they are repairs; or correcting only the numbers is ahead, and it is not known whether that makes a game.
    Open,
    /// Correcting only the numbers is ahead of all repairs by at least a wrong number, or there are none.
    Numbers,
    /// Two changes together cost less than the first repair.
    Pair,
    /// Correcting only the numbers is nearly as likely as the first repair, or likelier.
    NearNumbers,
    /// Another repair, which does not only say less, is less than a wrong number behind the first.
    Close,
    /// A slip of the whole sheet is as likely as what would be chosen otherwise, or nearly so; or it is ahead, but leaves numbers wrong.
    NearSheet,
    /// The first repair is ahead of all others by at least a wrong number, but for those that only say less.
    Clear(&'a Repair),
    /// This slip of the whole sheet is ahead of all else by at least a wrong number, and every number is right without it.
    Sheet(&'a SheetRepair),
}

/// What a repair costs.
pub(crate) fn cost_of(repair: &Repair) -> u128
    ensures { result ≡ cost_in repair.now }
{
    repair.remains.cost(&repair.listed.change.slip)
}

/// Whether the other slip only leaves out the tile that was taken for another one.
fn leaves_out_tile(slip: &TileSlip, other: &TileSlip) -> bool
    ensures { result ≡ leaves_out_tile slip.now other.now }
{
    match (slip, other) {
        (TileSlip::Other { tile, .. }, TileSlip::Extra { tile: one }) => same_tile(*tile, *one),
        _ => false,
    }
}

/// Whether the other slip says less of a stated rack.
fn says_less_slip(slip: &Slip, other: &Slip) -> bool
    ensures { result ≡ says_less_slip slip.now other.now }
{
    match (slip, other) {
        (
            Slip::Tile {
                of: TilesOf::Rack,
                slip,
            },
            Slip::Tile {
                of: TilesOf::Rack,
                slip: other,
            },
        ) => leaves_out_tile(slip, other),
        (
            Slip::Tile {
                of: TilesOf::Rack,
                ..
            },
            Slip::NoRack,
        ) => true,
        _ => false,
    }
}

/// Whether another repair says the same as the first, and less.
fn says_less(first: &Repair, other: &Repair) -> bool
    ensures { result ≡ says_less first.now other.now }
{
    first.listed.change.place == other.listed.change.place
        && says_less_slip(&first.listed.change.slip, &other.listed.change.slip)
}

/// Whether a cost is ahead of another one by at least a wrong number.
pub(crate) fn is_far_below(cost: u128, other: u128) -> bool
    ensures { IsTrue result ↔ (cost + 5 ≤ other) }
{
    other.saturating_sub(cost) >= NUMBER
}

/// Whether a repair is ahead of another one by at least a wrong number, or the other one only says less.
fn is_ahead_of(first: &Repair, other: &Repair) -> bool
    ensures { IsTrue result ↔ IsAheadOf first.now other.now }
{
    says_less(first, other) || is_far_below(cost_of(first), cost_of(other))
}

/// Whether a repair is ahead of all others.
fn is_ahead_of_all(first: &Repair, others: &[Repair]) -> bool
    ensures { IsTrue result ↔ All (IsAheadOf first.now) others.now }
{
    others.iter().all(|other| is_ahead_of(first, other))
}

/// Whether the cheapest pair costs less than a repair.
fn has_rival(first: &Repair, pairs: &[Pair]) -> bool
    ensures { IsTrue result ↔ HasRival first.now pairs.now }
{
    match pairs {
        [] => false,
        [pair, ..] => pair.cost < cost_of(first),
    }
}

/// Whether a repair is ahead of correcting only the numbers; it is if more than numbers is wrong.
fn is_ahead_of_numbers(alone: &Option<NumbersAlone>, repair: &Repair) -> bool
    ensures { IsTrue result ↔ IsAheadOfNumbers alone.now repair.now }
{
    match alone {
        Some(alone) => is_far_below(cost_of(repair), alone.cost()),
        None => true,
    }
}

/// Whether correcting only the numbers is ahead of the first repair.
fn leads_repairs(alone: &NumbersAlone, reported: &[Repair]) -> bool
    ensures { IsTrue result ↔ LeadsRepairs alone.now reported.now }
{
    match reported {
        [] => true,
        [first, ..] => is_far_below(alone.cost(), cost_of(first)),
    }
}

/// Whether correcting only the numbers is ahead of the cheapest pair.
fn leads_pairs(alone: &NumbersAlone, pairs: &[Pair]) -> bool
    ensures { IsTrue result ↔ LeadsPairs alone.now pairs.now }
{
    match pairs {
        [] => true,
        [pair, ..] => is_far_below(alone.cost(), pair.cost),
    }
}

/// Whether correcting only the numbers is ahead of all changes.
fn lead(alone: &Option<NumbersAlone>, reported: &[Repair], pairs: &[Pair]) -> bool
    ensures { IsTrue result ↔ Lead alone.now reported.now pairs.now }
{
    match alone {
        Some(alone) => leads_repairs(alone, reported) && leads_pairs(alone, pairs),
        None => false,
    }
}

/// The choice, if correcting only the numbers is ahead of all changes.
fn by_numbers<'a>(
    alone: &Option<NumbersAlone>,
    reported: &'a [Repair],
    pairs: &[Pair],
) -> Choice<'a>
    requires { Lead alone.now reported.now pairs.now }
    ensures { IsChoice reported.now true pairs.now [] alone.now result }
{
    match alone {
        Some(alone) if alone.is_game => Choice::Numbers,
        Some(_) => Choice::Open,
        None => unreachable!(),
    }
}

/// The choice, if there is no repair.
fn without_repair<'a>(
    alone: &Option<NumbersAlone>,
    reported: &'a [Repair],
    pairs: &[Pair],
) -> Choice<'a>
    requires reported { reported.now ≡ [] }
    requires following { Lead alone.now reported.now pairs.now → ⊥ }
    ensures { IsChoice reported.now true pairs.now [] alone.now result }
{
    match alone {
        Some(_) => Choice::Pair,
        None => Choice::None,
    }
}

/// The choice, if there is a repair and correcting only the numbers is not ahead of all changes.
fn by_repairs<'a>(
    alone: &Option<NumbersAlone>,
    reported: &'a [Repair],
    pairs: &[Pair],
) -> Choice<'a>
    requires { Lead alone.now reported.now pairs.now → ⊥ }
    ensures { IsChoice reported.now true pairs.now [] alone.now result }
{
    let [first, rest @ ..] = reported else {
        return without_repair(alone, reported, pairs);
    };
    if has_rival(first, pairs) {
        Choice::Pair
    } else if !is_ahead_of_numbers(alone, first) {
        Choice::NearNumbers
    } else if is_ahead_of_all(first, rest) {
        Choice::Clear(first)
    } else {
        Choice::Close
    }
}

/// The choice, if there is no slip of the whole sheet that repairs the record.
fn without_sheets<'a>(
    reported: &'a [Repair],
    pairs: &[Pair],
    alone: &Option<NumbersAlone>,
) -> Choice<'a>
    ensures { IsChoice reported.now true pairs.now [] alone.now result }
{
    if lead(alone, reported, pairs) {
        by_numbers(alone, reported, pairs)
    } else {
        by_repairs(alone, reported, pairs)
    }
}

/// Whether each change was tried, and is known to be a repair or not.
fn all_known(found: &Found) -> bool
    ensures { result ≡ all_known found.now.remaining.items found.now.from }
{
    match found.remaining.as_slice() {
        [] => found.from == 0,
        _ => false,
    }
}

/// Which of some repairs is to be chosen, if one is, given some pairs and slips of the whole sheet that were found too, and what is wrong if only the
/// numbers are.
pub(crate) fn choice_among<'a>(
    found: &'a Found,
    pairs: &[Pair],
    sheets: &'a [SheetRepair],
    alone: &Option<NumbersAlone>,
) -> Choice<'a>
    ensures { IsChoice found.now.reported.items (all_known found.now.remaining.items found.now.from) pairs.now sheets.now alone.now result }
{
    if !all_known(found) {
        return Choice::Open;
    }
    let reported = found.reported.as_slice();
    let without = without_sheets(reported, pairs, alone);
    match sheets {
        [] => without,
        [first, rest @ ..] => with_sheets(without, first, rest, reported, pairs, alone),
    }
}

/// Which of the repairs that were found is to be chosen, if one is.
pub fn choice_of(faulty: &Faulty) -> Choice<'_>
    ensures { IsChoice faulty.now.found.reported.items (all_known faulty.now.found.remaining.items faulty.now.found.from) faulty.now.pairs.reported.items faulty.now.sheets.items faulty.now.alone result }
{
    choice_among(
        &faulty.found,
        faulty.pairs.reported.as_slice(),
        faulty.sheets.as_slice(),
        &faulty.alone,
    )
}
