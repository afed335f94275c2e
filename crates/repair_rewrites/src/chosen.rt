//! The text of the sheet that a repair gives.
ghost use Rattle.std.specs.Prelude.{◌≡◌, IfOk, MatchOption};
ghost use Rattle.gcg_numbers.specs.Numbers.{text_with};
ghost use Rattle.repair_rewrites.specs.Kept.{IsRenumberedBy, IsNotRenumberedBy, IsRenumbered, IsNotRenumbered, IsTextBy, IsNoTextBy, IsChosenText, IsNoChosenText, IsLineText, IsNoLineText, IsTextOfRead, IsNoTextOfRead, IsRepairedText, IsNoRepairedText};
ghost use Rattle.repair_rewrites.specs.Reading.{IsKept, IsNotKept, IsKeptWithout, IsNotKeptWithout};
ghost use Rattle.repair_rewrites.specs.Sheets as without;
ghost use Rattle.repair_rewrites.specs.Texts as texts;

use crate::keeping::{kept_by_seat, kept_with, kept_without};
use engine_stages::game_from;
use game_case::{Case, Entry};
use game_walk::renumber;
use gcg_numbers::push_with_numbers;
use gcg_read::{Event, Players};
use repair_answers::{
    Choice, Faulty, LineRepairs, NumbersAlone, RepairAnswer, SheetRepair, choice_of, choice_of_line,
};
use repair_single::Repair;
use std::alloc::{AllocError, Global};

/// A text of a sheet with a repair; `None` if it is not kept.
fn sheet_with(
    alloc: Global,
    text: &[u8],
    players: &Players,
    repair: &Repair,
) -> Result<Option<Vec<u8>>, AllocError>
    ensures { IfOk result (λ made. MatchOption made (IsNotKept players.now repair.now.right (texts.repaired_text repair.now.listed.change players.now repair.now.right text.now))
        (λ t. IsKept players.now repair.now.right (texts.repaired_text repair.now.listed.change players.now repair.now.right text.now) t.items)) }
{
    let right = repair.right.as_slice();
    kept_with(alloc, text, players, &repair.listed.change, right)
}

/// A text of a sheet without a slip of the whole sheet; `None` if it is not kept.
fn sheet_of(
    alloc: Global,
    text: &[u8],
    players: &Players,
    repair: &SheetRepair,
) -> Result<Option<Vec<u8>>, AllocError>
    ensures { IfOk result (λ made. MatchOption made (IsNotKeptWithout repair.now.slip players.now repair.now.right (without.sheet_without repair.now.slip players.now repair.now.right text.now))
        (λ t. IsKeptWithout repair.now.slip players.now repair.now.right (without.sheet_without repair.now.slip players.now repair.now.right text.now) t.items)) }
{
    let right = repair.right.as_slice();
    kept_without(alloc, text, players, &repair.slip, right)
}

/// A text with the scores and totals of these events.
fn text_with(alloc: Global, text: &[u8], events: &[Event]) -> Result<Vec<u8>, AllocError>
    ensures { IfOk result (λ made. made.items ≡ text_with events.now text.now) }
{
    let mut made = Vec::new(alloc);
    push_with_numbers(&mut made, text, events)?;
    Ok(made)
}

/// A text of a record with its right scores and totals; `None` if it is not kept.
#[tactic(auto, using(crate::proofs::Choosing::renumbered_text, crate::proofs::Choosing::not_renumbered))]
fn renumbered_sheet(
    alloc: Global,
    text: &[u8],
    alone: &NumbersAlone,
) -> Result<Option<Vec<u8>>, AllocError>
    ensures { IfOk result (λ made. MatchOption made (IsNotRenumberedBy text.now alone.now) (λ t. IsRenumberedBy text.now alone.now t.items)) }
{
    let Ok(mut game) = game_from(alloc, text)? else {
        return Ok(None);
    };
    renumber(&mut game.events, alone.right.as_slice());
    let made = text_with(alloc, text, game.events.as_slice())?;
    kept_by_seat(alloc, made, game.events.as_slice())
}

/// A text of a record with its right scores and totals, if only these are wrong.
fn sheet_with_numbers(
    alloc: Global,
    text: &[u8],
    alone: &Option<NumbersAlone>,
) -> Result<Option<Vec<u8>>, AllocError>
    ensures { IfOk result (λ made. MatchOption made (IsNotRenumbered text.now alone.now) (λ t. IsRenumbered text.now alone.now t.items)) }
{
    match alone {
        Some(alone) => renumbered_sheet(alloc, text, alone),
        None => Ok(None),
    }
}

/// The text that a choice makes of a sheet; `None` if it makes none, or if that is not kept.
fn text_by(
    alloc: Global,
    text: &[u8],
    players: &Players,
    alone: &Option<NumbersAlone>,
    choice: Choice<'_>,
) -> Result<Option<Vec<u8>>, AllocError>
    ensures { IfOk result (λ made. MatchOption made (IsNoTextBy text.now players.now alone.now choice.entry) (λ t. IsTextBy text.now players.now alone.now choice.entry t.items)) }
{
    match choice {
        Choice::Clear(repair) => sheet_with(alloc, text, players, repair),
        Choice::Sheet(repair) => sheet_of(alloc, text, players, repair),
        Choice::Numbers => sheet_with_numbers(alloc, text, alone),
        Choice::None
        | Choice::Open
        | Choice::Pair
        | Choice::NearNumbers
        | Choice::Close
        | Choice::NearSheet => Ok(None),
    }
}

/// The text of the sheet of a record by the choice among its repairs; `None` if there is none.
#[tactic(auto, using(crate::proofs::Choosing::chosen_text))]
fn chosen_sheet(
    alloc: Global,
    text: &[u8],
    entry: &Entry,
    faulty: &Faulty,
) -> Result<Option<Vec<u8>>, AllocError>
    ensures { IfOk result (λ made. MatchOption made (IsNoChosenText text.now entry.now.record.players faulty.now) (λ t. IsChosenText text.now entry.now.record.players faulty.now t.items)) }
{
    let choice = choice_of(faulty);
    text_by(alloc, text, &entry.record.players, &faulty.alone, choice)
}

/// The text of a sheet that is not a record, by the choice among the slips of its bad line; `None` if there is none.
#[tactic(auto, using(crate::proofs::Choosing::line_text))]
fn sheet_of_line(
    alloc: Global,
    text: &[u8],
    repairs: &LineRepairs,
) -> Result<Option<Vec<u8>>, AllocError>
    ensures { IfOk result (λ made. MatchOption made (IsNoLineText text.now repairs.now) (λ t. IsLineText text.now repairs.now t.items)) }
{
    let players = Players::unnamed(alloc);
    let alone: Option<NumbersAlone> = None;
    let choice = choice_of_line(repairs);
    text_by(alloc, text, &players, &alone, choice)
}

/// The text of the sheet of a case with an illegal record; `None` if there is none.
fn sheet_of_read(alloc: Global, case: &Case, faulty: &Faulty) -> Result<Option<Vec<u8>>, AllocError>
    ensures { IfOk result (λ made. MatchOption made (IsNoTextOfRead case.now.text.items case.now.read faulty.now) (λ t. IsTextOfRead case.now.text.items case.now.read faulty.now t.items)) }
{
    let Ok(entry) = &case.read else {
        return Ok(None);
    };
    let made = chosen_sheet(alloc, case.text.as_slice(), entry, faulty)?;
    Ok(made)
}

/// The text of the sheet that is to be written for an answer; `None` if there is none.
///
/// It is that by the choice among the repairs: with the repair, without the slip of the whole sheet or of its bad line, or with only its numbers
/// corrected. There is none if nothing is chosen, if a player who has a line has no nickname, if the text would not read so, or if the slip does not
/// say of each line what should be there.
pub fn sheet_to_keep(
    alloc: Global,
    case: &Case,
    answer: &RepairAnswer,
) -> Result<Option<Vec<u8>>, AllocError>
    ensures { IfOk result (λ made. MatchOption made (IsNoRepairedText case.now answer.now.faulty answer.now.of_line) (λ t. IsRepairedText case.now answer.now.faulty answer.now.of_line t.items)) }
{
    match (&answer.faulty, &answer.of_line) {
        (Some(faulty), _) => sheet_of_read(alloc, case, faulty),
        (None, Some(repairs)) => {
            let made = sheet_of_line(alloc, case.text.as_slice(), repairs)?;
            Ok(made)
        }
        (None, None) => Ok(None),
    }
}
