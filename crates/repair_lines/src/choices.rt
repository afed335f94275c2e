//! Whether the repaired sheet is written.

use game_case::Case;
use gcg_read::Players;
use repair_answers::{Choice, LineRepairs, RepairAnswer, SheetRepair, choice_of, choice_of_line};
use repair_rewrites::{can_be_without, can_be_written, says_each_line};
use repair_single::Repair;
use std::alloc::AllocError;

/// What is said of a repaired sheet that is kept.
const WRITTEN: &[u8] = b"written: the sheet with the first repair\n";

/// What is said of one in which a line would name nobody.
const UNNAMED: &[u8] = b"not written: a player of the repaired sheet has no nickname\n";

/// What is said of one that does not read as the record that it was made for.
const UNLIKE: &[u8] = b"not written: the repaired sheet would not read as the repaired record\n";

/// Appends that the sheet with a repair is written, or why it is not.
fn push_written(
    text: &mut Vec<u8>,
    players: &Players,
    repair: &Repair,
    kept: bool,
) -> Result<(), AllocError> {
    text.extend_from_slice(if kept {
        WRITTEN
    } else if can_be_written(players, repair.right.as_slice()) {
        UNLIKE
    } else {
        UNNAMED
    })
}

/// Appends that the sheet without a slip is written, or why it is not.
fn push_without(
    text: &mut Vec<u8>,
    players: &Players,
    repair: &SheetRepair,
    kept: bool,
) -> Result<(), AllocError> {
    if !says_each_line(&repair.slip) {
        return text.extend_from_slice(
            b"not written: of two equal letters in a word either may be the blank\n",
        );
    }
    text.extend_from_slice(if kept {
        WRITTEN
    } else if can_be_without(players, &repair.slip, repair.right.as_slice()) {
        UNLIKE
    } else {
        UNNAMED
    })
}

/// Appends that the sheet with its right numbers is written, or why it is not.
fn push_numbers(text: &mut Vec<u8>, kept: bool) -> Result<(), AllocError> {
    if !kept {
        return text.extend_from_slice(UNLIKE);
    }
    text.extend_from_slice(b"written: the sheet with its right numbers\n")
}

/// Appends whether the sheet with a repair of its line is written, or why it is not.
fn push_line_choice(
    text: &mut Vec<u8>,
    of_line: &Option<LineRepairs>,
    kept: bool,
) -> Result<(), AllocError> {
    let choice = match of_line {
        Some(repairs) => choice_of_line(repairs),
        None => Choice::None,
    };
    text.extend_from_slice(match choice {
        Choice::Sheet(_) if kept => WRITTEN,
        Choice::Sheet(_) => UNLIKE,
        Choice::Open =>
            b"not written: it is not a record, and it is not known whether it is a game with the first repair\n",
        Choice::NearSheet =>
            b"not written: it is not a record, and another repair is as likely as the first, or nearly so, or the first leaves numbers wrong\n",
        _ => b"not written: it is not a record\n",
    })
}

/// Appends which sheet is written, or why none is; `kept` says whether there is one.
///
/// It fails only if memory runs out.
pub fn push_choice(
    text: &mut Vec<u8>,
    case: &Case,
    answer: &RepairAnswer,
    kept: bool,
) -> Result<(), AllocError> {
    let Ok(entry) = &case.read else {
        return push_line_choice(text, &answer.of_line, kept);
    };
    let Some(faulty) = &answer.faulty else {
        return text.extend_from_slice(b"not written: there is nothing to repair\n");
    };
    match choice_of(faulty) {
        Choice::Clear(repair) => push_written(text, &entry.record.players, repair, kept),
        Choice::Sheet(repair) => push_without(text, &entry.record.players, repair, kept),
        Choice::NearSheet => text.extend_from_slice(
            b"not written: a slip of the whole sheet is as likely as another repair, or nearly so, or leaves numbers wrong\n",
        ),
        Choice::Numbers => push_numbers(text, kept),
        Choice::None => text.extend_from_slice(b"not written: no single change repairs it\n"),
        Choice::Open => {
            text.extend_from_slice(
                b"not written: it is not known whether another change repairs it\n",
            )
        }
        Choice::NearNumbers => text.extend_from_slice(
            b"not written: correcting only the numbers is as likely as the first repair, or nearly so\n",
        ),
        Choice::Close => text.extend_from_slice(
            b"not written: the second repair is nearly as likely as the first\n",
        ),
        Choice::Pair if faulty.lines.is_empty() => text.extend_from_slice(
            b"not written: two changes are as likely as correcting only the numbers, or nearly so\n",
        ),
        Choice::Pair => text.extend_from_slice(
            b"not written: two changes are likelier than the first repair\n",
        ),
    }
}
