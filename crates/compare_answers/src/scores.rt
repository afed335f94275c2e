//! Lines of a pair, and their scores.
ghost use Rattle.std.specs.Prelude.{◌≡◌, ◌≤◌, length, slice_get, IfOk};
ghost use Rattle.std.specs.Option.{option_copied};
ghost use Rattle.compare_alignments.specs.Merging.{line_at};
ghost use Rattle.compare_answers.specs.Scores.{line_on, score_of, unless_missing, score_on, right_score, other_side};

use crate::places::place_of;
use compare_alignments::{Pair, Side};
use compare_choices::{Best, Sheets};
use gcg_drafts::Missing;
use gcg_read::{Event, Record};
use std::alloc::{AllocError, Global};

/// The other sheet.
pub(crate) fn other_side(side: Side) -> Side
    ensures { result ≡ other_side side }
{
    match side {
        Side::First => Side::Second,
        Side::Second => Side::First,
    }
}

/// The line at a place of a record, if there is a place.
pub(crate) fn line_at(sheet: &Record, place: Option<usize>) -> Option<&Event>
    ensures { option_copied result ≡ line_at sheet.now.events place }
{
    match place {
        Some(place) => sheet.events.as_slice().get(place),
        None => None,
    }
}

/// The line of a pair on a sheet.
fn line_on<'a>(sheets: &'a Sheets, pair: &Pair, side: Side) -> Option<&'a Event>
    ensures { option_copied result ≡ line_on sheets.now pair.now side }
{
    match side {
        Side::First => line_at(&sheets.first, pair.first),
        Side::Second => line_at(&sheets.second, pair.second),
    }
}

/// The score of an event, if there is an event.
fn score_of(event: Option<&Event>) -> Option<i32>
    ensures { result ≡ score_of (option_copied event.entry) }
{
    match event {
        Some(event) => Some(event.score.value()),
        None => None,
    }
}

/// The score, if it is not missing.
fn unless_missing(missing: Missing, score: Option<i32>) -> Option<i32>
    ensures { result ≡ unless_missing missing score }
{
    match missing {
        Missing::Both => None,
        Missing::Nothing | Missing::Total => score,
    }
}

/// The score of the line of a pair on a sheet, if there is a line and its score is written.
pub(crate) fn score_on(sheets: &Sheets, pair: &Pair, side: Side) -> Option<i32>
    ensures { result ≡ score_on sheets.now pair.now side }
{
    let score = score_of(line_on(sheets, pair, side));
    unless_missing(sheets.lack_on(pair, side), score)
}

/// The score that the rules give the event of the pair at an index, in a game.
pub(crate) fn right_score(
    alloc: Global,
    sheets: &Sheets,
    game: &Best,
    index: usize,
) -> Result<Option<i32>, AllocError>
    requires { index ≤ length sheets.now.pairs.items }
    ensures { IfOk result (λ score. score ≡ right_score sheets.now game.now index) }
{
    let place = place_of(alloc, sheets, game.choice, index)?;
    Ok(score_of(game.right.as_slice().get(place)))
}
