//! The sheet that a repair of a choice changes.
ghost use Rattle.std.specs.Prelude.{◌≡◌, slice_get, IfOk};
ghost use Rattle.std.specs.Option.{option_copied};
ghost use Rattle.compare_repaired.specs.Repaired.{best_choice, best_repair};
ghost use Rattle.compare_answers.specs.Changed.{has_number, one_side, side_on, side_at, IsChangedAt, IsChanged};

use crate::places::pair_of;
use crate::scores::line_at;
use compare_alignments::{Pair, Side};
use compare_choices::Sheets;
use compare_repaired::{RepairedChoice, RepairedChoices};
use gcg_read::Event;
use std::alloc::{AllocError, Global};

/// Whether a line of a sheet has this number.
fn has_number(event: Option<&Event>, line: u32) -> bool
    ensures { result ≡ has_number (option_copied event.entry) line }
{
    match event {
        Some(event) => event.line == line,
        None => false,
    }
}

/// The only sheet of which something is so.
fn one_side(on_first: bool, on_second: bool) -> Option<Side>
    ensures { result ≡ one_side on_first on_second }
{
    match (on_first, on_second) {
        (true, false) => Some(Side::First),
        (false, true) => Some(Side::Second),
        _ => None,
    }
}

/// The only sheet on which the line of a pair has this number.
fn side_on(sheets: &Sheets, pair: &Pair, line: u32) -> Option<Side>
    ensures { result ≡ side_on sheets.now pair.now line }
{
    let on_first = has_number(line_at(&sheets.first, pair.first), line);
    let on_second = has_number(line_at(&sheets.second, pair.second), line);
    one_side(on_first, on_second)
}

/// The same for the pair at an index, if there is one.
fn side_at(sheets: &Sheets, at: Option<usize>, line: u32) -> Option<Side>
    ensures { result ≡ side_at sheets.now at line }
{
    let Some(index) = at else {
        return None;
    };
    match sheets.pairs.as_slice().get(index) {
        Some(pair) => side_on(sheets, pair, line),
        None => None,
    }
}

/// The sheet of the line at a place of a choice, if the line has another number on the other sheet.
fn changed_at(
    alloc: Global,
    sheets: &Sheets,
    choice: &RepairedChoice,
    place: usize,
) -> Result<Option<Side>, AllocError>
    ensures { IfOk result (IsChangedAt sheets.now choice.now.choice place (slice_get choice.now.written place)) }
{
    let Some(event) = choice.written.as_slice().get(place) else {
        return Ok(None);
    };
    let at = pair_of(alloc, sheets, choice.choice, place)?;
    Ok(side_at(sheets, at, event.line))
}

/// The sheet whose line the best repair changes, if the line has another number on the other sheet.
pub(crate) fn changed_sheet(
    alloc: Global,
    sheets: &Sheets,
    repaired: &RepairedChoices,
) -> Result<Option<Side>, AllocError>
    ensures { IfOk result (IsChanged sheets.now (best_choice repaired.now) (best_repair repaired.now)) }
{
    let Some(choice) = repaired.best_choice() else {
        return Ok(None);
    };
    match repaired.best_repair() {
        Some(repair) => changed_at(alloc, sheets, choice, repair.listed.change.place),
        None => Ok(None),
    }
}
