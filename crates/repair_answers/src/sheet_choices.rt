//! Whether a slip of the whole sheet is the likeliest repair by far.
ghost use Rattle.std.specs.Prelude.{◌≡◌, ◌↔◌, ◌∷◌, true, [], All, IsTrue, List, Option, slice_get};
ghost use Rattle.repair_single.specs.declared.repair.Repair.{Repair};
ghost use Rattle.repair_pairs.specs.declared.found.Pair.{Pair};
ghost use Rattle.repair_answers.specs.declared.sheet_repair.SheetRepair.{SheetRepair};
ghost use Rattle.repair_answers.specs.declared.numbers_alone.NumbersAlone.{NumbersAlone};
ghost use Rattle.repair_answers.specs.Choices.{is_missing, is_on, says_less_than, IsAheadOfRepair, IsFarBelowSheets, IsFarBelowPairs, IsFarBelowNumbers, AreNumbersBelow, IsSheetAhead, IsChoice};
ghost use Rattle.repair_answers.specs.declared.choices.Choice.TheVariants as choice;

use crate::choices::{Choice, cost_of, is_far_below};
use crate::numbers_alone::NumbersAlone;
use crate::sheet_repair::SheetRepair;
use gcg_read::Event;
use repair_changes::Slip;
use repair_pairs::Pair;
use repair_sheets::SheetSlip;
use repair_single::Repair;

/// Whether a cost is at least a wrong number below that of the first of some slips of the whole sheet.
fn is_below_sheets(cost: u128, sheets: &[SheetRepair]) -> bool
    ensures { IsTrue result ↔ IsFarBelowSheets cost sheets.now }
{
    match sheets {
        [] => true,
        [first, ..] => is_far_below(cost, first.cost),
    }
}

/// Whether a line is missing with a slip.
fn is_missing(slip: &Slip) -> bool
    ensures { result ≡ is_missing slip.now }
{
    match slip {
        Slip::Missing(_) => true,
        _ => false,
    }
}

/// Whether the event at a place is on a line.
fn is_on(line: u32, right: &[Event], place: usize) -> bool
    ensures { result ≡ is_on line (slice_get right.now place) }
{
    match right.get(place) {
        Some(event) => event.line == line,
        None => false,
    }
}

/// Whether a repair says less than a slip of the whole sheet: a line is missing where one is that is not read.
fn says_less_than(first: &SheetRepair, repair: &Repair) -> bool
    ensures { result ≡ says_less_than first.now.slip first.now.right repair.now }
{
    let change = &repair.listed.change;
    match first.slip {
        SheetSlip::Unread(unread) => {
            is_missing(&change.slip) && is_on(unread.line, first.right.as_slice(), change.place)
        }
        SheetSlip::ExtraMark { .. } | SheetSlip::NoPlace { .. } | SheetSlip::Running { .. } =>
            false,
    }
}

/// Whether a slip of the whole sheet is ahead of a repair by at least a wrong number, or the repair says less and costs no less.
fn is_ahead_of(first: &SheetRepair, repair: &Repair) -> bool
    ensures { IsTrue result ↔ IsAheadOfRepair first.now repair.now }
{
    let cost = cost_of(repair);
    (says_less_than(first, repair) && first.cost <= cost) || is_far_below(first.cost, cost)
}

/// Whether a slip of the whole sheet is ahead of all repairs.
fn is_ahead_of_all(first: &SheetRepair, reported: &[Repair]) -> bool
    ensures { IsTrue result ↔ All (IsAheadOfRepair first.now) reported.now }
{
    reported.iter().all(|repair| is_ahead_of(first, repair))
}

/// Whether a cost is at least a wrong number below that of the cheapest of some pairs.
fn is_below_pairs(cost: u128, pairs: &[Pair]) -> bool
    ensures { IsTrue result ↔ IsFarBelowPairs cost pairs.now }
{
    match pairs {
        [] => true,
        [pair, ..] => is_far_below(cost, pair.cost),
    }
}

/// Whether a cost is at least a wrong number below that of correcting only the numbers.
fn is_below_numbers(cost: u128, alone: &Option<NumbersAlone>) -> bool
    ensures { IsTrue result ↔ IsFarBelowNumbers cost alone.now }
{
    match alone {
        Some(alone) => is_far_below(cost, alone.cost()),
        None => true,
    }
}

/// Whether a slip of the whole sheet is ahead of the others, of all repairs, of two changes and of correcting only the numbers.
fn is_sheet_ahead(
    first: &SheetRepair,
    rest: &[SheetRepair],
    reported: &[Repair],
    pairs: &[Pair],
    alone: &Option<NumbersAlone>,
) -> bool
    ensures { IsTrue result ↔ IsSheetAhead first.now rest.now reported.now pairs.now alone.now }
{
    let cost = first.cost;
    is_below_sheets(cost, rest)
        && is_ahead_of_all(first, reported)
        && is_below_pairs(cost, pairs)
        && is_below_numbers(cost, alone)
}

/// The choice, if the first slip of the whole sheet is ahead of all else.
#[tactic(auto, using(crate::proofs::SheetChoices::sheet_ahead))]
fn by_sheet(first: &SheetRepair) -> Choice<'_>
    ensures { (reported : List Repair) (pairs : List Pair) (alone : Option NumbersAlone) (rest : List SheetRepair)
        → IsSheetAhead first.now rest reported pairs alone → IsChoice reported true pairs (first.now ∷ rest) alone result }
{
    if !first.alone.is_game {
        Choice::Open
    } else if first.alone.remains.wrong.is_empty() {
        Choice::Sheet(first)
    } else {
        Choice::NearSheet
    }
}

/// Whether correcting only the numbers is ahead of a slip of the whole sheet.
fn are_numbers_below(alone: &Option<NumbersAlone>, first: &SheetRepair) -> bool
    ensures { (rest : List SheetRepair) → IsTrue result ↔ AreNumbersBelow alone.now (first.now ∷ rest) }
{
    match alone {
        Some(alone) => is_far_below(alone.cost(), first.cost),
        None => false,
    }
}

/// The choice, if it would be to correct only the numbers without this slip of the whole sheet: that has to be ahead of the slip.
#[tactic(auto, using(crate::proofs::SheetChoices::numbers_beside))]
fn numbers_beside<'a>(alone: &Option<NumbersAlone>, first: &'a SheetRepair) -> Choice<'a>
    ensures { (reported : List Repair) (pairs : List Pair) (rest : List SheetRepair) → (IsSheetAhead first.now rest reported pairs alone.now → ⊥)
        → IsChoice reported true pairs [] alone.now choice.Numbers → IsChoice reported true pairs (first.now ∷ rest) alone.now result }
{
    if are_numbers_below(alone, first) {
        Choice::Numbers
    } else {
        Choice::NearSheet
    }
}

/// The choice, if it would be a repair without this slip of the whole sheet: the repair has to be ahead of the slip.
#[tactic(auto, using(crate::proofs::SheetChoices::repair_beside))]
fn repair_beside<'a>(repair: &'a Repair, first: &SheetRepair) -> Choice<'a>
    ensures { (reported : List Repair) (pairs : List Pair) (alone : Option NumbersAlone) (rest : List SheetRepair) → (IsSheetAhead first.now rest reported pairs alone → ⊥)
        → IsChoice reported true pairs [] alone (choice.Clear repair.entry) → IsChoice reported true pairs (first.now ∷ rest) alone result }
{
    if is_far_below(cost_of(repair), first.cost) {
        Choice::Clear(repair)
    } else {
        Choice::NearSheet
    }
}

/// The choice, if a slip of the whole sheet is not ahead of all else, and this one is made without it: it has to be ahead of the slip.
#[tactic(auto, using(crate::proofs::SheetChoices::choice_beside))]
fn beside_sheet<'a>(
    choice: Choice<'a>,
    alone: &Option<NumbersAlone>,
    first: &'a SheetRepair,
) -> Choice<'a>
    ensures { (reported : List Repair) (pairs : List Pair) (rest : List SheetRepair) → (IsSheetAhead first.now rest reported pairs alone.now → ⊥)
        → IsChoice reported true pairs [] alone.now choice.entry → IsChoice reported true pairs (first.now ∷ rest) alone.now result }
{
    match choice {
        Choice::None => Choice::NearSheet,
        Choice::Numbers => numbers_beside(alone, first),
        Choice::Clear(repair) => repair_beside(repair, first),
        Choice::Open => Choice::Open,
        Choice::Pair => Choice::Pair,
        Choice::NearNumbers => Choice::NearNumbers,
        Choice::Close => Choice::Close,
        Choice::Sheet(_) | Choice::NearSheet => Choice::NearSheet,
    }
}

/// The choice, if there are slips of the whole sheet that repair the record, and this is the one without them.
pub(crate) fn with_sheets<'a>(
    without: Choice<'a>,
    first: &'a SheetRepair,
    rest: &[SheetRepair],
    reported: &[Repair],
    pairs: &[Pair],
    alone: &Option<NumbersAlone>,
) -> Choice<'a>
    requires { IsChoice reported.now true pairs.now [] alone.now without }
    ensures { IsChoice reported.now true pairs.now (first.now ∷ rest.now) alone.now result }
{
    if is_sheet_ahead(first, rest, reported, pairs, alone) {
        by_sheet(first)
    } else {
        beside_sheet(without, alone, first)
    }
}
