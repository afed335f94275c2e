//! Which texts of a sheet are kept: those that read as the events that they were made for.
ghost use Rattle.std.specs.Prelude.{◌≡◌, IfOk, MatchOption};
ghost use Rattle.repair_rewrites.specs.Reading.{says_each_of, says_each_line, IsKept, IsNotKept, IsKeptBySeat, IsNotKeptBySeat, IsKeptWithout, IsNotKeptWithout};
ghost use Rattle.repair_rewrites.specs.Sheets as without;
ghost use Rattle.repair_rewrites.specs.Texts as texts;

use crate::reading::{reads_by_name, reads_by_seat};
use crate::sheets::sheet_without;
use crate::writing::{can_be_written, repaired_text};
use gcg_read::{Event, Players};
use repair_changes::Change;
use repair_sheets::{RunningSlip, SheetSlip};
use std::alloc::{AllocError, Global};

/// A text that was made, if each player who has a line has a nickname and the text reads as these events; `None` otherwise.
#[tactic(auto, using(crate::proofs::Readings::kept, crate::proofs::Readings::unnamed, crate::proofs::Readings::unread))]
fn kept_by_name(
    alloc: Global,
    made: Vec<u8>,
    players: &Players,
    right: &[Event],
) -> Result<Option<Vec<u8>>, AllocError>
    ensures { IfOk result (λ kept. MatchOption kept (IsNotKept players.now right.now made.items) (λ text. IsKept players.now right.now made.items text.items)) }
{
    if !can_be_written(players, right) {
        return Ok(None);
    }
    if !reads_by_name(alloc, made.as_slice(), players, right)? {
        return Ok(None);
    }
    Ok(Some(made))
}

/// A text that was made, if it reads as these events; `None` otherwise.
///
/// It fails only if memory runs out.
#[tactic(auto, using(crate::proofs::Readings::kept_by_seat, crate::proofs::Readings::unread_by_seat))]
pub(crate) fn kept_by_seat(
    alloc: Global,
    made: Vec<u8>,
    right: &[Event],
) -> Result<Option<Vec<u8>>, AllocError>
    ensures { IfOk result (λ kept. MatchOption kept (IsNotKeptBySeat right.now made.items) (λ text. IsKeptBySeat right.now made.items text.items)) }
{
    if !reads_by_seat(alloc, made.as_slice(), right)? {
        return Ok(None);
    }
    Ok(Some(made))
}

/// The text of a sheet with a change, given the right events with it. `None` if a player who has a line has no nickname, or if the text does not read as
/// these events.
///
/// It fails only if memory runs out.
///
/// Each other line is as it was given, but for numbers that are not right. That there is a text for each repair with which it has no more than 1 MiB
/// is tested.
pub(crate) fn kept_with(
    alloc: Global,
    text: &[u8],
    players: &Players,
    change: &Change,
    right: &[Event],
) -> Result<Option<Vec<u8>>, AllocError>
    ensures { IfOk result (λ kept. MatchOption kept (IsNotKept players.now right.now (texts.repaired_text change.now players.now right.now text.now))
        (λ made. IsKept players.now right.now (texts.repaired_text change.now players.now right.now text.now) made.items)) }
{
    let made = repaired_text(alloc, text, players, change, right)?;
    kept_by_name(alloc, made, players, right)
}

/// Whether a slip that runs through a sheet says of each line what should be there.
fn says_each_of(slip: RunningSlip) -> bool
    ensures { result ≡ says_each_of slip }
{
    !matches!(slip, RunningSlip::CapitalBlanks)
}

/// Whether a slip of the whole sheet says of each line what should be there. If blanks are written as capitals it does not: of two equal letters in a word
/// either may be the blank.
pub fn says_each_line(slip: &SheetSlip) -> bool
    ensures { result ≡ says_each_line slip.now }
{
    match slip {
        SheetSlip::Running { slip: running, .. } => says_each_of(*running),
        SheetSlip::Unread(_) | SheetSlip::ExtraMark { .. } | SheetSlip::NoPlace { .. } => true,
    }
}

/// The text of a sheet without a slip of the whole sheet, given the events without it, with their right numbers. `None` if the slip does not say of each
/// line what should be there, if a player whose line is written anew has no nickname, or if the text does not read as these events.
///
/// It fails only if memory runs out.
pub(crate) fn kept_without(
    alloc: Global,
    text: &[u8],
    players: &Players,
    slip: &SheetSlip,
    right: &[Event],
) -> Result<Option<Vec<u8>>, AllocError>
    ensures { IfOk result (λ kept. MatchOption kept (IsNotKeptWithout slip.now players.now right.now (without.sheet_without slip.now players.now right.now text.now))
        (λ made. IsKeptWithout slip.now players.now right.now (without.sheet_without slip.now players.now right.now text.now) made.items)) }
{
    if !says_each_line(slip) {
        return Ok(None);
    }
    let made = sheet_without(alloc, text, players, slip, right)?;
    match slip {
        SheetSlip::Running { .. } => kept_by_name(alloc, made, players, right),
        SheetSlip::Unread(_) | SheetSlip::ExtraMark { .. } | SheetSlip::NoPlace { .. } => {
            kept_by_seat(alloc, made, right)
        }
    }
}
