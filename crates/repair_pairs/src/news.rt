//! Whether two changes are listed in addition to single repairs of the record.
ghost use Rattle.std.specs.Prelude.{◌≡◌, IsTrue};
ghost use Rattle.repair_pairs.specs.Pairs.{ConcernsSheet, is_on_sheet, WrongOnSheet, CostsLess, MakesOther};

use game_corrections::WrongNumber;
use gcg_read::Event;
use repair_changes::{Change, NUMBER, WORD, weight_of, wrong_events};
use repair_single::{Repair, makes};

/// Whether each line that a change concerns is on the sheet, and not one that a first change added.
pub(crate) fn concerns_sheet(made: &[Event], change: &Change) -> bool
    ensures { IsTrue result → ConcernsSheet made.now change.now }
{
    let many = wrong_events(&change.slip);
    if change.place > made.len() || many > made.len() - change.place {
        return false;
    }
    for place in change.place..change.place + many {
        if made[place].line == 0 {
            return false;
        }
    }
    true
}

/// Whether a wrong number is on the sheet.
fn is_on_sheet(number: &WrongNumber) -> bool
    ensures { result ≡ is_on_sheet number.now }
{
    match number {
        WrongNumber::Score { line, .. } => *line != 0,
        WrongNumber::Sum { line, .. } => *line != 0,
        WrongNumber::Total { .. } => true,
    }
}

/// Whether each number that stays wrong is on the sheet, and not on a line that a first change added.
fn wrong_on_sheet(then: &Repair) -> bool
    ensures { IsTrue result → WrongOnSheet then.now }
{
    for number in then.remains.wrong.as_slice() {
        if !is_on_sheet(number) {
            return false;
        }
    }
    true
}

/// Whether each of these repairs costs more than `cost`.
fn costs_less(singles: &[Repair], cost: u128) -> bool
    ensures { IsTrue result → CostsLess singles.now cost }
{
    for single in singles {
        if cost >= single.remains.cost(&single.listed.change.slip) {
            return false;
        }
    }
    true
}

/// Whether none of these repairs makes the same record.
fn makes_other(singles: &[Repair], then: &Repair) -> bool
    ensures { IsTrue result → MakesOther singles.now then.now }
{
    for single in singles {
        if makes(single, then.right.as_slice()) {
            return false;
        }
    }
    true
}

/// Whether each line that a repair of a record concerns, and each number that stays wrong with it, is on the sheet, and not on a line that an earlier change
/// added.
pub(crate) fn is_of_sheet(made: &[Event], then: &Repair) -> bool
    ensures lines { IsTrue result → ConcernsSheet made.now then.now.listed.change }
    ensures numbers { IsTrue result → WrongOnSheet then.now }
{
    concerns_sheet(made, &then.listed.change) && wrong_on_sheet(then)
}

/// Whether two changes that cost `cost` are listed in addition to single repairs: the second concerns lines of the sheet, and so does each number that stays
/// wrong; each of the single repairs costs more, and makes another record.
pub(crate) fn is_reported(singles: &[Repair], made: &[Event], then: &Repair, cost: u128) -> bool
    ensures lines { IsTrue result → ConcernsSheet made.now then.now.listed.change }
    ensures numbers { IsTrue result → WrongOnSheet then.now }
    ensures cheaper { IsTrue result → CostsLess singles.now cost }
    ensures other { IsTrue result → MakesOther singles.now then.now }
{
    is_of_sheet(made, then) && costs_less(singles, cost) && makes_other(singles, then)
}

/// What the likeliest of some repairs costs; `None` if there is no repair.
pub(crate) fn least_cost(singles: &[Repair]) -> Option<usize> {
    let first = singles.first()?;
    let numbers = first.remains.wrong.len().saturating_mul(NUMBER as usize);
    let words = first.remains.unlisted.len().saturating_mul(WORD as usize);
    let weight = weight_of(&first.listed.change.slip);
    Some(numbers.saturating_add(words).saturating_add(weight))
}
