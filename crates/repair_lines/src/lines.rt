//! The lines of an answer.

use crate::bad_records::push_line_repairs;
use crate::chains::push_chain;
use crate::changes::{push_change, push_change_at, push_change_of};
use crate::evidence::push_evidence;
use crate::letters::push_difference;
use crate::sheets::push_sheet;
use draft_numbers::{count_written, numbers_to_go_by};
use explain_parts::{Part, say};
use game_case::{Case, case_line};
use gcg_drafts::Missing;
use gcg_read::Record;
use repair_answers::{Faulty, Item, NumbersAlone, RepairAnswer, Reported, items_of};
use repair_changes::{WORDS_OF_SLIPS, numbers_with_both};
use repair_pairs::{Head, Pair, Pairs, later_spot};
use repair_single::Repair;
use std::alloc::{AllocError, Global};
use text_decimals::push_number;

/// Appends what the other repairs of a line have where they differ from the first.
fn push_others(text: &mut Vec<u8>, repairs: &[Repair], others: &[usize]) -> Result<(), AllocError> {
    if others.is_empty() {
        return Ok(());
    }
    let mut between: &[u8] = b" (or with ";
    for index in others {
        text.extend_from_slice(between)?;
        if let Some(repair) = repairs.get(*index) {
            push_difference(text, &repair.listed.change.slip)?;
        }
        between = b", ";
    }
    text.extend_from_slice(b")")
}

/// Appends a repair and those that are like it.
fn push_reported(
    text: &mut Vec<u8>,
    record: &Record,
    lacks: &[Missing],
    repairs: &[Repair],
    reported: &Reported,
) -> Result<(), AllocError> {
    let Some(repair) = repairs.get(reported.first) else {
        return Ok(());
    };
    push_change_of(text, record, repair)?;
    push_others(text, repairs, reported.others.as_slice())?;
    text.extend_from_slice(b"\n")?;
    let numbers = numbers_to_go_by(lacks, &repair.listed.change, record.events.len());
    push_evidence(text, &repair.remains, numbers)
}

/// Appends both changes of a pair.
fn push_both(
    text: &mut Vec<u8>,
    record: &Record,
    head: &Head,
    pair: &Pair,
) -> Result<(), AllocError> {
    let events = record.events.as_slice();
    let made = head.made.as_slice();
    push_change(text, &record.players, events, &head.first.change, made)?;
    text.extend_from_slice(b"; and ")?;
    let second = &pair.then.listed.change;
    push_change_at(
        text,
        &record.players,
        made,
        second,
        pair.then.right.as_slice(),
        later_spot(made, second),
    )
}

/// Appends what the other pairs of a line have where they differ from the first.
fn push_other_pairs(text: &mut Vec<u8>, pairs: &Pairs, others: &[usize]) -> Result<(), AllocError> {
    if others.is_empty() {
        return Ok(());
    }
    let mut between: &[u8] = b" (or with ";
    for index in others {
        text.extend_from_slice(between)?;
        if let Some(pair) = pairs.reported.as_slice().get(*index) {
            push_difference(text, &pair.then.listed.change.slip)?;
        }
        between = b", ";
    }
    text.extend_from_slice(b")")
}

/// Appends a pair of changes and those that are like it.
fn push_pair(
    text: &mut Vec<u8>,
    record: &Record,
    pairs: &Pairs,
    reported: &Reported,
) -> Result<(), AllocError> {
    let Some(pair) = pairs.reported.as_slice().get(reported.first) else {
        return Ok(());
    };
    let Some(head) = pairs.heads.as_slice().get(pair.head) else {
        return Ok(());
    };
    push_both(text, record, head, pair)?;
    push_other_pairs(text, pairs, reported.others.as_slice())?;
    text.extend_from_slice(b"\n")?;
    let first = &head.first.change.slip;
    let second = &pair.then.listed.change.slip;
    let numbers = numbers_with_both(first, second, record.events.len());
    push_evidence(text, &pair.then.remains, numbers)
}

/// Appends the pairs of changes that repair a record, if there are any.
fn push_pairs(text: &mut Vec<u8>, record: &Record, faulty: &Faulty) -> Result<(), AllocError> {
    if faulty.pair_lines.is_empty() {
        return Ok(());
    }
    text.extend_from_slice(b"with two changes:\n")?;
    for reported in faulty.pair_lines.as_slice() {
        push_pair(text, record, &faulty.pairs, reported)?;
    }
    Ok(())
}

/// Appends that only the numbers are wrong, if that is so.
fn push_alone(
    text: &mut Vec<u8>,
    record: &Record,
    lacks: &[Missing],
    faulty: &Faulty,
) -> Result<(), AllocError> {
    let Some(alone) = &faulty.alone else {
        return Ok(());
    };
    text.extend_from_slice(if alone.is_game {
        b"with only the numbers corrected it is a game\n"
    } else {
        b"with only the numbers corrected it may be a game: no deal was found\n"
    })?;
    push_evidence(
        text,
        &alone.remains,
        count_written(lacks, record.events.len()),
    )
}

/// Appends one of the things that are reported of an illegal record.
fn push_item(
    text: &mut Vec<u8>,
    record: &Record,
    lacks: &[Missing],
    faulty: &Faulty,
    item: Item,
) -> Result<(), AllocError> {
    match item {
        Item::Line(number) => match faulty.lines.as_slice().get(number) {
            Some(reported) => push_reported(
                text,
                record,
                lacks,
                faulty.found.reported.as_slice(),
                reported,
            ),
            None => Ok(()),
        },
        Item::Numbers => push_alone(text, record, lacks, faulty),
        Item::Sheet(number) => match faulty.sheets.as_slice().get(number) {
            Some(repair) => push_sheet(text, record, repair),
            None => Ok(()),
        },
    }
}

/// Whether more words are not in the list than come from slips, if only the numbers are wrong.
fn has_other_list(alone: &NumbersAlone) -> bool {
    alone.remains.unlisted.len() > WORDS_OF_SLIPS
}

/// Appends that no single change helps, if that is so.
fn push_none(text: &mut Vec<u8>, faulty: &Faulty) -> Result<(), AllocError> {
    if !faulty.lines.is_empty() {
        return Ok(());
    }
    text.extend_from_slice(b"none of ")?;
    push_number(text, faulty.tried)?;
    text.extend_from_slice(b" single changes ")?;
    text.extend_from_slice(match (&faulty.alone, faulty.found.remaining.is_empty()) {
        (Some(_), true) => b"leaves fewer errors",
        (Some(_), false) => b"is known to leave fewer errors",
        (None, true) => b"makes it a game",
        (None, false) => b"is known to make it a game",
    })?;
    match &faulty.alone {
        Some(alone) if has_other_list(alone) => {
            text.extend_from_slice(b", but for letters that merely trade places\n")
        }
        _ => text.extend_from_slice(b"\n"),
    }
}

/// Appends how many changes are left open, if there are any.
fn push_remaining(text: &mut Vec<u8>, faulty: &Faulty) -> Result<(), AllocError> {
    let remaining = faulty.found.remaining.len();
    if remaining == 0 {
        return Ok(());
    }
    say(
        text,
        &[
            Part::Say("with "),
            Part::Things(remaining, "more change"),
            Part::Say(" every event stands, but no deal was found\n"),
        ],
    )
}

/// Appends how many changes were not tried, and which, if there are any.
fn push_untried(text: &mut Vec<u8>, record: &Record, faulty: &Faulty) -> Result<(), AllocError> {
    if faulty.untried == 0 {
        return Ok(());
    }
    push_number(text, faulty.untried)?;
    text.extend_from_slice(b" of ")?;
    push_number(text, faulty.changes)?;
    text.extend_from_slice(b" changes were not tried, since the record is long")?;
    if let Some(event) = record.events.as_slice().get(faulty.found.from) {
        text.extend_from_slice(b": those before line ")?;
        push_number(text, event.line as u128)?;
    }
    text.extend_from_slice(b"\n")
}

/// Appends that the game may have been played with another list, if with only its numbers corrected the record is a game, or may be one, and more words are
/// not in the list than come from slips.
fn push_other_list(text: &mut Vec<u8>, faulty: &Faulty) -> Result<(), AllocError> {
    let Some(alone) = &faulty.alone else {
        return Ok(());
    };
    let unlisted = alone.remains.unlisted.len();
    if !has_other_list(alone) {
        return Ok(());
    }
    say(
        text,
        &[
            Part::Things(unlisted, "word"),
            Part::Say(
                " of the plays are not in the list: perhaps the game was played with another word list\n",
            ),
        ],
    )
}

/// Appends how many numbers of a draft there are to go by, if some are missing.
fn push_to_go_by(text: &mut Vec<u8>, record: &Record, lacks: &[Missing]) -> Result<(), AllocError> {
    let written = count_written(lacks, record.events.len());
    let all = count_written(&[], record.events.len());
    if written == all {
        return Ok(());
    }
    text.extend_from_slice(b"numbers to go by: ")?;
    push_number(text, written)?;
    text.extend_from_slice(b" of ")?;
    push_number(text, all)?;
    text.extend_from_slice(b", the others are missing\n")
}

/// Appends what repairs an illegal record, in the order of what it costs.
fn push_faulty(
    alloc: Global,
    text: &mut Vec<u8>,
    record: &Record,
    lacks: &[Missing],
    faulty: &Faulty,
) -> Result<(), AllocError> {
    push_to_go_by(text, record, lacks)?;
    push_other_list(text, faulty)?;
    for item in items_of(alloc, faulty)? {
        push_item(text, record, lacks, faulty, item)?;
    }
    push_none(text, faulty)?;
    push_remaining(text, faulty)?;
    push_untried(text, record, faulty)?;
    push_pairs(text, record, faulty)
}

/// Appends what repairs a text that is not a record, if it is none.
fn push_of_line(text: &mut Vec<u8>, answer: &RepairAnswer) -> Result<(), AllocError> {
    match &answer.of_line {
        Some(repairs) => push_line_repairs(text, repairs),
        None => Ok(()),
    }
}

/// Appends the answer on the case of a record, or of the sheet of a draft whose lines lack these numbers: its verdict line and, if the record is illegal or the
/// text is not one, its repairs with their evidence.
///
/// It fails only if memory runs out.
pub fn push_repairs(
    alloc: Global,
    text: &mut Vec<u8>,
    case: &Case,
    lacks: &[Missing],
    answer: &RepairAnswer,
) -> Result<(), AllocError> {
    let line = case_line(alloc, case)?;
    text.extend_from_slice(line.as_slice())?;
    match (&case.read, &answer.faulty) {
        (Ok(entry), Some(faulty)) => {
            push_faulty(alloc, text, &entry.record, lacks, faulty)?;
            push_chain(text, &entry.record, &answer.chain)
        }
        _ => push_of_line(text, answer),
    }
}
