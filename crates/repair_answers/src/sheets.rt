//! Slips of the whole sheet that repair a record.
ghost use Rattle.std.specs.Prelude.{◌≡◌, ◌<◌, ◌≤◌, ◌+◌, [], length, slice_get, IfOk, OnOk};
ghost use Rattle.std.specs.Option.{option_copied};
ghost use Rattle.repair_sheets.specs.BadListing.{bad_slips};
ghost use Rattle.repair_sheets.specs.Weights.{weight_of};
ghost use Rattle.repair_answers.specs.Choices.{alone_cost};
ghost use Rattle.repair_answers.specs.Sheets.{slip_places, slips_tried, count_wrong, sheet_room, IsRighted, IsTrial, AreFoundTo, AreSheetRepairs};

use crate::no_change::unchanged;
use crate::numbers_alone::NumbersAlone;
use crate::sheet_repair::{Righted, SheetRepair};
use game_walk::{Walk, renumber};
use gcg_read::{Event, Events, Players, Record};
use lex_list::WordList;
use ref_tiles::Rules;
use repair_sheets::{SheetSlip, bad_slips, sheet_slips, weight_of, without_slip};
use std::alloc::{AllocError, Global};

/// At how many places a slip may begin that runs through the sheet.
const MOST_PLACES: usize = 60;

/// Fewer numbers and words than this stay wrong without a slip of the whole sheet.
const FEWER_THAN: usize = 10;

/// At how many of the first places of a record a slip may begin that runs through its sheet.
fn slip_places(events: &[Event], walk: &Walk) -> usize
    ensures number { result ≡ slip_places events.now walk.now }
    ensures within { result ≤ length events.now }
{
    let stop = walk.rows.len().saturating_add(1);
    stop.min(MOST_PLACES).min(events.len())
}

/// How many numbers and words are wrong if only the numbers are.
fn count_wrong(alone: &NumbersAlone) -> usize
    ensures { result ≡ count_wrong alone.now }
{
    alone.remains.wrong.len() + alone.remains.unlisted.len()
}

/// Fewer numbers and words than this stay wrong without a slip of the whole sheet, and fewer than if only the numbers are corrected.
fn sheet_room(alone: &Option<NumbersAlone>) -> usize
    ensures { result ≡ sheet_room alone.now }
{
    match alone {
        Some(alone) => count_wrong(alone).min(FEWER_THAN),
        None => FEWER_THAN,
    }
}

/// What is wrong with some events if only their numbers are, and the events with their right numbers; `None` if more is wrong.
fn put_right(
    alloc: Global,
    rules: &Rules,
    list: &WordList,
    events: Events,
) -> Result<Option<Righted>, AllocError>
    ensures { IfOk result (IsRighted rules.now list.now events) }
{
    let players = Players::unnamed(alloc);
    let mut game = Record { players, events };
    let Some(alone) = unchanged(alloc, rules, list, &mut game)? else {
        return Ok(None);
    };
    renumber(&mut game.events, alone.right.as_slice());
    Ok(Some(Righted {
        right: game.events,
        alone,
    }))
}

/// The repair with the slip that has this number.
fn repair_with(number: usize, slip: SheetSlip, righted: Righted) -> SheetRepair
    ensures number { result.number ≡ number }
    ensures slip { result.slip ≡ slip }
    ensures right { result.right ≡ righted.right }
    ensures alone { result.alone ≡ righted.alone }
    ensures cost { result.cost ≡ weight_of slip + alone_cost righted.alone }
{
    let cost = weight_of(&slip) as u128 + righted.alone.cost();
    SheetRepair {
        number,
        slip,
        right: righted.right,
        alone: righted.alone,
        cost,
    }
}

/// The repair that a slip of the whole sheet is, if it is one.
#[tactic(auto, using(crate::proofs::SheetTrials::trials))]
fn tried(
    alloc: Global,
    rules: &Rules,
    list: &WordList,
    text: &[u8],
    events: &[Event],
    room: usize,
    number: usize,
    slip: SheetSlip,
) -> Result<Option<SheetRepair>, AllocError>
    ensures { IfOk result (IsTrial rules.now list.now text.now events.now room number slip) }
{
    let Some(made) = without_slip(alloc, &slip, text, events)? else {
        return Ok(None);
    };
    let Some(righted) = put_right(alloc, rules, list, made)? else {
        return Ok(None);
    };
    if count_wrong(&righted.alone) >= room {
        return Ok(None);
    }
    Ok(Some(repair_with(number, slip, righted)))
}

/// The slip at a number, if there is one.
#[tactic(auto, using(crate::proofs::SheetsFound::copied_get))]
fn slip_at(slips: &[SheetSlip], number: usize) -> Option<&SheetSlip>
    ensures { option_copied result ≡ slice_get slips.now number }
{
    slips.get(number)
}

/// Adds the repair that the slip at a number is, if it is one.
#[tactic(auto, using(crate::proofs::SheetsFound::none_more, crate::proofs::SheetsFound::one_more))]
fn push_tried(
    alloc: Global,
    found: &mut Vec<SheetRepair>,
    rules: &Rules,
    list: &WordList,
    text: &[u8],
    events: &[Event],
    room: usize,
    slips: &[SheetSlip],
    number: usize,
) -> Result<(), AllocError>
    requires { number < length slips.now }
    ensures { OnOk result (AreFoundTo rules.now list.now text.now events.now room slips.now number found.old.items
        → AreFoundTo rules.now list.now text.now events.now room slips.now (number + 1) found.new.items) }
{
    let Some(slip) = slip_at(slips, number) else {
        return Ok(());
    };
    let Some(repair) = tried(alloc, rules, list, text, events, room, number, *slip)? else {
        return Ok(());
    };
    found.push(repair)?;
    Ok(())
}

/// Those of some slips of the whole sheet that repair a record, in the order of the list.
fn found_among(
    alloc: Global,
    rules: &Rules,
    list: &WordList,
    text: &[u8],
    events: &[Event],
    room: usize,
    slips: &[SheetSlip],
) -> Result<Vec<SheetRepair>, AllocError>
    ensures { IfOk result (λ found. AreFoundTo rules.now list.now text.now events.now room slips.now (length slips.now) found.items) }
{
    let mut found = Vec::new(alloc);
    for number in 0..slips.len() {
        push_tried(
            alloc, &mut found, rules, list, text, events, room, slips, number,
        )?;
    }
    Ok(found)
}

/// Those of some slips of the whole sheet that repair a record: those that cost least first.
fn repairs_among(
    alloc: Global,
    rules: &Rules,
    list: &WordList,
    text: &[u8],
    events: &[Event],
    room: usize,
    slips: &[SheetSlip],
) -> Result<Vec<SheetRepair>, AllocError>
    ensures { IfOk result (λ found. AreSheetRepairs rules.now list.now text.now events.now room slips.now found.items) }
{
    let mut found = found_among(alloc, rules, list, text, events, room, slips)?;
    found.sort_by_key(|repair| repair.cost)?;
    Ok(found)
}

/// The slips of the whole sheet that repair a record, given its text, its walk, and what is wrong if only its numbers are: those that cost least first.
///
/// It fails only if memory runs out.
#[tactic(auto, using(crate::proofs::SheetsFound::sheets_of))]
pub(crate) fn sheet_repairs(
    alloc: Global,
    rules: &Rules,
    list: &WordList,
    text: &[u8],
    events: &[Event],
    walk: &Walk,
    alone: &Option<NumbersAlone>,
) -> Result<Vec<SheetRepair>, AllocError>
    ensures { IfOk result (λ found. AreSheetRepairs rules.now list.now text.now events.now (sheet_room alone.now) (slips_tried text.now events.now walk.now) found.items) }
{
    let slips = sheet_slips(alloc, text, events, slip_places(events, walk))?;
    let room = sheet_room(alone);
    repairs_among(alloc, rules, list, text, events, room, slips.as_slice())
}

/// The slips of the line with this number with which a text that is not a record is one: those that cost least first.
///
/// It fails only if memory runs out.
pub(crate) fn line_repairs(
    alloc: Global,
    rules: &Rules,
    list: &WordList,
    text: &[u8],
    number: u32,
) -> Result<Vec<SheetRepair>, AllocError>
    ensures { IfOk result (λ found. AreSheetRepairs rules.now list.now text.now [] 10 (bad_slips text.now number) found.items) }
{
    let slips = bad_slips(alloc, text, number)?;
    repairs_among(alloc, rules, list, text, &[], FEWER_THAN, slips.as_slice())
}
