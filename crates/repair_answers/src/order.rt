//! What repairs a record, in the order of what it costs.

use crate::answers::Faulty;
use crate::choices::cost_of;
use std::alloc::{AllocError, Global};

/// What is reported of an illegal record.
#[derive(Clone, Copy)]
pub enum Item {
    /// The line of repairs with this number.
    Line(usize),
    /// That only its numbers are wrong.
    Numbers,
    /// The slip of the whole sheet with this number among those that repair it.
    Sheet(usize),
}

/// What the first repair of a line costs.
fn cost_at(faulty: &Faulty, line: usize) -> u128 {
    let Some(reported) = faulty.lines.as_slice().get(line) else {
        return 0;
    };
    match faulty.found.reported.as_slice().get(reported.first) {
        Some(repair) => cost_of(repair),
        None => 0,
    }
}

/// How many of the slips of the whole sheet cost less.
fn sheets_below(faulty: &Faulty, cost: u128) -> usize {
    faulty
        .sheets
        .iter()
        .filter(|repair| repair.cost < cost)
        .count()
}

/// Adds the slips of the whole sheet with numbers from `from` to before `end`.
fn push_sheets(items: &mut Vec<Item>, from: usize, end: usize) -> Result<(), AllocError> {
    for number in from..end {
        items.push(Item::Sheet(number))?;
    }
    Ok(())
}

/// Adds that only the numbers are wrong, if that comes before a line; `done` slips of the whole sheet are there already. Returns how many are then.
fn push_numbers(
    items: &mut Vec<Item>,
    faulty: &Faulty,
    line: usize,
    done: usize,
) -> Result<usize, AllocError> {
    let Some(alone) = &faulty.alone else {
        return Ok(done);
    };
    if line != faulty.before_numbers {
        return Ok(done);
    }
    let end = sheets_below(faulty, alone.cost());
    push_sheets(items, done, end)?;
    items.push(Item::Numbers)?;
    Ok(end.max(done))
}

/// All that repairs an illegal record, in the order of what it costs. Of what costs the same, correcting only the numbers comes first, and slips of the
/// whole sheet come last.
///
/// It fails only if memory runs out.
///
/// The order is tested.
pub fn items_of(alloc: Global, faulty: &Faulty) -> Result<Vec<Item>, AllocError> {
    let mut items = Vec::new(alloc);
    let mut done = 0;
    for line in 0..faulty.lines.len() {
        done = push_numbers(&mut items, faulty, line, done)?;
        let end = sheets_below(faulty, cost_at(faulty, line));
        push_sheets(&mut items, done, end)?;
        done = done.max(end);
        items.push(Item::Line(line))?;
    }
    done = push_numbers(&mut items, faulty, faulty.lines.len(), done)?;
    push_sheets(&mut items, done, faulty.sheets.len())?;
    Ok(items)
}
