//! Pairs of lines that are not the same, as trees.
ghost use Rattle.std.specs.Prelude.{◌≡◌, ◌<◌, Some, IfOk, length, option_map};
ghost use Rattle.std.specs.List.{HoldsAt};
ghost use Rattle.json_trees.specs.Trees.{view};
ghost use Rattle.json_trees.specs.Values.{text};
ghost use Rattle.draft_numbers.specs.Texts.{text_without};
ghost use Rattle.compare_json.specs.Differences.{are_same, difference_at, difference_object, differences_value, do_agree, is_same, line_at, line_object, other_of, other_value, own_rack, own_sheet, refused_value, refused_with, right_on, right_value, taken_value, unless_same, unless_same_at, written_on, written_value};

use crate::choices::refused_tree;
use crate::names::{lines_name, other_name, own_rack_name, racks_name, side_name};
use compare_alignments::{Pair, Side};
use compare_answers::{LinesAnswer, OtherLine, PairAnswer, RacksAnswer};
use compare_choices::Sheets;
use draft_numbers::push_event_text;
use engine_stages::GameFault;
use gcg_drafts::Missing;
use gcg_read::{Event, Record};
use json_base::{item_at, number_of, rack_tree};
use json_trees::{
    Tree, array, count_tree, integer_tree, name_tree, null_tree, object, push_if, text_tree,
};
use std::alloc::{AllocError, Global};

/// What the line at a place says after its rack, without the numbers that it lacks.
fn said_at(alloc: Global, game: &Record, place: usize, missing: Missing) -> Result<Tree, AllocError>
    requires { place < length game.now.events }
    ensures { IfOk result (λ tree. HoldsAt (λ event. view tree ≡ text (text_without missing event)) game.now.events place) }
{
    let mut text = Vec::new(alloc);
    push_event_text(&mut text, game, place, missing)?;
    text_tree(alloc, text.as_slice())
}

/// A line of a sheet, which lacks these numbers.
fn line_of(
    alloc: Global,
    game: &Record,
    missing: Missing,
    event: &Event,
    said: Tree,
) -> Result<Tree, AllocError>
    requires { view said ≡ text (text_without missing event.now) }
    ensures { IfOk result (λ tree. view tree ≡ line_object game.now missing event.now) }
{
    let nick = text_tree(alloc, game.players.of(event.player).nick.as_bytes())?;
    let rack = rack_tree(alloc, &event.rack)?;
    let fields = vec![in alloc;
        ("line", count_tree(event.line)),
        ("player", count_tree(number_of(event.player))),
        ("nick", nick),
        ("rack", rack),
        ("text", said),
    ]?;
    Ok(object(fields))
}

/// The line at a place of a sheet, if there is one, which lacks these numbers.
fn line_tree(
    alloc: Global,
    game: &Record,
    missing: Missing,
    place: usize,
) -> Result<Tree, AllocError>
    ensures { IfOk result (λ tree. view tree ≡ line_at game.now missing (Some place)) }
{
    if place >= game.events.len() {
        return Ok(null_tree());
    }
    let event = &game.events.as_slice()[place];
    let said = said_at(alloc, game, place, missing)?;
    line_of(alloc, game, missing, event, said)
}

/// The line at a place of a sheet, if there is a place, which lacks these numbers.
fn line_at(
    alloc: Global,
    game: &Record,
    missing: Missing,
    place: Option<usize>,
) -> Result<Tree, AllocError>
    ensures { IfOk result (λ tree. view tree ≡ line_at game.now missing place) }
{
    match place {
        Some(place) => line_tree(alloc, game, missing, place),
        None => Ok(null_tree()),
    }
}

/// The sheet whose line is taken; null if nothing is said of that.
fn taken_tree(lines: &LinesAnswer) -> Tree
    ensures { view result ≡ taken_value lines.now }
{
    match lines {
        LinesAnswer::Taken { side, .. } => name_tree(side_name(*side)),
        LinesAnswer::Agree | LinesAnswer::OtherScores { .. } | LinesAnswer::Differ => null_tree(),
    }
}

/// What comes of the line that is not taken, if something is said of that.
fn other_of(lines: &LinesAnswer) -> Option<OtherLine>
    ensures { result ≡ other_of lines.now }
{
    match lines {
        LinesAnswer::Taken { other, .. } => Some(*other),
        LinesAnswer::Agree | LinesAnswer::OtherScores { .. } | LinesAnswer::Differ => None,
    }
}

/// What comes of the line that is not taken, by its name.
fn other_tree(other: Option<OtherLine>) -> Tree
    ensures { view result ≡ other_value other }
{
    match other {
        Some(other) => name_tree(other_name(other)),
        None => null_tree(),
    }
}

/// Where an event is refused with the line that is not taken; null if none is.
fn refused_with(alloc: Global, sheets: &Sheets, other: OtherLine) -> Result<Tree, AllocError>
    ensures { IfOk result (λ tree. view tree ≡ refused_with sheets.now other) }
{
    match other {
        OtherLine::Refused { at, why } => refused_tree(alloc, sheets, at, &GameFault::Rule(why)),
        OtherLine::NotVaried
        | OtherLine::AsGood
        | OtherLine::NoDeal
        | OtherLine::NoDealFound
        | OtherLine::OtherScore { .. }
        | OtherLine::MoreWrong => Ok(null_tree()),
    }
}

/// The same, if something is said of the line.
fn refused_or_null(
    alloc: Global,
    sheets: &Sheets,
    other: Option<OtherLine>,
) -> Result<Tree, AllocError>
    ensures { IfOk result (λ tree. view tree ≡ refused_value sheets.now other) }
{
    match other {
        Some(other) => refused_with(alloc, sheets, other),
        None => Ok(null_tree()),
    }
}

/// The score that is written on the line that is not taken; null if it is not said.
fn written_on(other: OtherLine) -> Tree
    ensures { view result ≡ written_on other }
{
    match other {
        OtherLine::OtherScore { written, .. } => integer_tree(written),
        OtherLine::NotVaried
        | OtherLine::AsGood
        | OtherLine::Refused { .. }
        | OtherLine::NoDeal
        | OtherLine::NoDealFound
        | OtherLine::MoreWrong => null_tree(),
    }
}

/// The same, if something is said of the line.
fn written_tree(other: Option<OtherLine>) -> Tree
    ensures { view result ≡ written_value other }
{
    match other {
        Some(other) => written_on(other),
        None => null_tree(),
    }
}

/// The score that the rules give with the line that is not taken; null if it is not said.
fn right_on(other: OtherLine) -> Tree
    ensures { view result ≡ right_on other }
{
    match other {
        OtherLine::OtherScore { right, .. } => integer_tree(right),
        OtherLine::NotVaried
        | OtherLine::AsGood
        | OtherLine::Refused { .. }
        | OtherLine::NoDeal
        | OtherLine::NoDealFound
        | OtherLine::MoreWrong => null_tree(),
    }
}

/// The score that the rules give; null if it is not said.
fn right_tree(lines: &LinesAnswer) -> Tree
    ensures { view result ≡ right_value lines.now }
{
    match lines {
        LinesAnswer::OtherScores { right } => integer_tree(*right),
        LinesAnswer::Taken { other, .. } => right_on(*other),
        LinesAnswer::Agree | LinesAnswer::Differ => null_tree(),
    }
}

/// The player's own sheet; null if the racks are the same, or of two players.
fn own_sheet_tree(racks: &RacksAnswer) -> Tree
    ensures { view result ≡ own_sheet racks.now }
{
    match racks {
        RacksAnswer::Own { side, .. } => name_tree(side_name(*side)),
        RacksAnswer::Other { own, .. } => name_tree(side_name(*own)),
        RacksAnswer::Same | RacksAnswer::Differ => null_tree(),
    }
}

/// Why the rack of the own sheet is not taken; null if it is.
fn own_rack_tree(racks: &RacksAnswer) -> Tree
    ensures { view result ≡ own_rack racks.now }
{
    match racks {
        RacksAnswer::Other { why, .. } => name_tree(own_rack_name(*why)),
        RacksAnswer::Own { .. } | RacksAnswer::Same | RacksAnswer::Differ => null_tree(),
    }
}

/// A pair of lines that are not the same.
fn difference_tree(
    alloc: Global,
    sheets: &Sheets,
    pair: &Pair,
    answer: &PairAnswer,
) -> Result<Tree, AllocError>
    ensures { IfOk result (λ tree. view tree ≡ difference_object sheets.now pair.now answer.now) }
{
    let lack = sheets.lack_on(pair, Side::First);
    let first = line_at(alloc, &sheets.first, lack, pair.first)?;
    let lack = sheets.lack_on(pair, Side::Second);
    let second = line_at(alloc, &sheets.second, lack, pair.second)?;
    let other = other_of(&answer.lines);
    let refused = refused_or_null(alloc, sheets, other)?;
    let fields = vec![in alloc;
        ("first", first),
        ("second", second),
        ("lines", name_tree(lines_name(answer.lines))),
        ("taken", taken_tree(&answer.lines)),
        ("other", other_tree(other)),
        ("refused", refused),
        ("written", written_tree(other)),
        ("right", right_tree(&answer.lines)),
        ("racks", name_tree(racks_name(answer.racks))),
        ("own_sheet", own_sheet_tree(&answer.racks)),
        ("own_rack", own_rack_tree(&answer.racks)),
    ]?;
    Ok(object(fields))
}

/// Whether two lines agree, scores included.
fn do_agree(lines: &LinesAnswer) -> bool
    ensures { result ≡ do_agree lines.now }
{
    match lines {
        LinesAnswer::Agree => true,
        LinesAnswer::OtherScores { .. } | LinesAnswer::Differ | LinesAnswer::Taken { .. } => false,
    }
}

/// Whether two lines state the same rack, or one of them none.
fn are_same(racks: &RacksAnswer) -> bool
    ensures { result ≡ are_same racks.now }
{
    match racks {
        RacksAnswer::Same => true,
        RacksAnswer::Differ | RacksAnswer::Own { .. } | RacksAnswer::Other { .. } => false,
    }
}

/// Whether the lines of a pair are the same.
fn is_same(answer: &PairAnswer) -> bool
    ensures { result ≡ is_same answer.now }
{
    do_agree(&answer.lines) && are_same(&answer.racks)
}

/// A pair of lines, unless they are the same.
fn unless_same(
    alloc: Global,
    sheets: &Sheets,
    pair: &Pair,
    answer: &PairAnswer,
) -> Result<Option<Tree>, AllocError>
    ensures { IfOk result (λ tree. option_map view tree ≡ unless_same sheets.now pair.now answer.now) }
{
    if is_same(answer) {
        Ok(None)
    } else {
        Ok(Some(difference_tree(alloc, sheets, pair, answer)?))
    }
}

/// The same of a pair with the answer at an index, if there is one.
fn unless_same_at(
    alloc: Global,
    sheets: &Sheets,
    answers: &[PairAnswer],
    index: usize,
    pair: &Pair,
) -> Result<Option<Tree>, AllocError>
    ensures { IfOk result (λ tree. option_map view tree ≡ unless_same_at sheets.now answers.now index pair.now) }
{
    match item_at(answers, index) {
        Some(answer) => unless_same(alloc, sheets, pair, answer),
        None => Ok(None),
    }
}

/// The pair of lines at an index, unless they are the same.
#[tactic(auto, unfolding(crate::specs::Differences::difference_at))]
fn difference_at(
    alloc: Global,
    sheets: &Sheets,
    answers: &[PairAnswer],
    index: usize,
) -> Result<Option<Tree>, AllocError>
    ensures { IfOk result (λ tree. option_map view tree ≡ difference_at sheets.now answers.now index) }
{
    match item_at(sheets.pairs.as_slice(), index) {
        Some(pair) => unless_same_at(alloc, sheets, answers, index, pair),
        None => Ok(None),
    }
}

/// The pairs of lines that are not the same.
#[tactic(auto, using(std::proofs::lemmas::Grind::common_steps, repair_json::proofs::Ranges::filter_map_range_more))]
pub(crate) fn differences_array(
    alloc: Global,
    sheets: &Sheets,
    answers: &[PairAnswer],
) -> Result<Tree, AllocError>
    ensures { IfOk result (λ tree. view tree ≡ differences_value sheets.now answers.now) }
{
    let mut trees = Vec::new(alloc);
    for index in 0..answers.len() {
        push_if(&mut trees, difference_at(alloc, sheets, answers, index)?)?;
    }
    Ok(array(trees))
}
