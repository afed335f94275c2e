//! What is missing on the lines of two drafts, and of what a choice takes from them.
ghost use Rattle.std.specs.Prelude.{◌≡◌, ◌++◌, ◌∷◌, [], IfOk, OnOk, slice_get};
ghost use Rattle.std.specs.Option.{option_copied};
ghost use Rattle.compare_alignments.specs.Merging.{of_side};
ghost use Rattle.compare_alignments.specs.Lacking.{said, lack_at, lack_of, as_list, lacks_of, lacks_taken, merged_lacks};

use crate::choices::next_item;
use crate::merging::{line_at, side_of};
use crate::pairs::{Pair, Side};
use gcg_drafts::Missing;
use gcg_read::Event;
use std::alloc::{AllocError, Global};

/// What the lines of two drafts lack, in their order.
#[derive(Drop)]
pub struct Lacks {
    /// Those of the first.
    pub first: Vec<Missing>,
    /// Those of the second.
    pub second: Vec<Missing>,
}

/// What is said of a line: it lacks nothing, if nothing is said.
fn said(missing: Option<&Missing>) -> Missing
    ensures { result ≡ said (option_copied missing.entry) }
{
    match missing {
        None => Missing::Nothing,
        Some(missing) => *missing,
    }
}

/// What the line at a place lacks, if there is a place.
pub fn lack_at(lacks: &[Missing], place: Option<usize>) -> Missing
    ensures { result ≡ lack_at lacks.now place }
{
    match place {
        Some(place) => said(lacks.get(place)),
        None => Missing::Nothing,
    }
}

/// What a line lacks, if there is a line.
fn lack_of(line: Option<&Event>, missing: Missing) -> Option<Missing>
    ensures { result ≡ lack_of (option_copied line.entry) missing }
{
    match line {
        Some(_) => Some(missing),
        None => None,
    }
}

/// The one of two that is missing on a sheet.
fn of_side(sheet: Side, missing: Missing, other: Missing) -> Missing
    ensures { result ≡ of_side sheet missing other }
{
    match sheet {
        Side::First => missing,
        Side::Second => other,
    }
}

/// What is missing of what is taken from two lines with the numbers of a sheet, or from a line without a partner; none if nothing is taken.
fn lack_taken(
    sheet: Side,
    side: Side,
    first: Option<Missing>,
    second: Option<Missing>,
) -> Option<Missing>
    ensures { as_list result ≡ lacks_of sheet side first second }
{
    match (first, second) {
        (Some(missing), Some(other)) => Some(of_side(sheet, missing, other)),
        (Some(missing), None) => match side {
            Side::First => Some(missing),
            Side::Second => None,
        },
        (None, Some(other)) => match side {
            Side::First => None,
            Side::Second => Some(other),
        },
        (None, None) => None,
    }
}

/// Appends what is missing of what is taken from a pair, if its lines have this number as an item.
fn push_taken(
    all: &mut Vec<Missing>,
    sheet: Side,
    choice: usize,
    number: usize,
    first: &[Event],
    second: &[Event],
    lacks: &Lacks,
    pair: &Pair,
) -> Result<(), AllocError>
    ensures { OnOk result (all.new.items ≡ all.old.items ++ lacks_taken sheet choice number first.now second.now lacks.now pair.now) }
{
    let line = line_at(first, pair.first);
    let other = line_at(second, pair.second);
    let side = side_of(choice, number, pair, line, other);
    let missing = lack_of(line, lack_at(lacks.first.as_slice(), pair.first));
    let also = lack_of(other, lack_at(lacks.second.as_slice(), pair.second));
    if let Some(lack) = lack_taken(sheet, side, missing, also) {
        all.push(lack)?;
    }
    Ok(())
}

/// What is missing on the lines of the record that a choice makes from two drafts, with the numbers of a sheet.
///
/// It fails only if memory runs out.
pub fn merge_lacks(
    alloc: Global,
    sheet: Side,
    choice: usize,
    first: &[Event],
    second: &[Event],
    lacks: &Lacks,
    pairs: &[Pair],
) -> Result<Vec<Missing>, AllocError>
    ensures { IfOk result (λ all. all.items ≡ merged_lacks sheet choice first.now second.now lacks.now pairs.now) }
{
    let mut all = Vec::new(alloc);
    let mut number = 0;
    for pair in pairs {
        push_taken(&mut all, sheet, choice, number, first, second, lacks, pair)?;
        number = next_item(number, pair);
    }
    Ok(all)
}
