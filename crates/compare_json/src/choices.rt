//! Choices as trees.
ghost use Rattle.std.specs.Prelude.{◌≡◌, IfOk, option_map};
ghost use Rattle.std.specs.Option.{option_copied};
ghost use Rattle.json_trees.specs.Trees.{view};
ghost use Rattle.json_trees.specs.Values.{array_of, or_null};
ghost use Rattle.compare_json.specs.Choices.{best_object, choice_object, choices_value, first_line, is_rack, line_at, line_taken, line_value, lines_to, pair_at, rack_name, rack_taken, racks_to, refused_object, second_line, stop_object};

use crate::names::side_name;
use compare_alignments::{MOST_ITEMS, Pair, chosen_side, is_chosen};
use compare_answers::{ComparisonAnswer, ItemCounts};
use compare_choices::{Best, Sheets, Stop};
use engine_stages::GameFault;
use gcg_read::Event;
use json_base::{game_fault_tree, item_at};
use json_trees::{
    Tree, array, count_tree, name_tree, null_tree, object, push_if, size_tree, wide_tree,
};
use std::alloc::{AllocError, Global};

/// The sheet whose line a choice takes for an item, if it is one of lines.
fn line_taken(counts: &ItemCounts, choice: usize, number: usize) -> Option<Tree>
    ensures { option_map view result ≡ line_taken counts.now choice number }
{
    if number < counts.items {
        Some(name_tree(side_name(chosen_side(choice, number))))
    } else {
        None
    }
}

/// Whether a rack is the one of the player's own sheet, by whether the choice takes the other one.
fn rack_name(is_chosen: bool) -> &'static str
    ensures { result.now ≡ rack_name is_chosen }
{
    if is_chosen { "other" } else { "own" }
}

/// Whether an item is one of racks.
fn is_rack(counts: &ItemCounts, number: usize) -> bool
    ensures { result ≡ is_rack counts.now number }
{
    counts.items <= number && number - counts.items < counts.racks
}

/// The rack that a choice takes for an item, if it is one of racks.
fn rack_taken(counts: &ItemCounts, choice: usize, number: usize) -> Option<Tree>
    ensures { option_map view result ≡ rack_taken counts.now choice number }
{
    if is_rack(counts, number) {
        Some(name_tree(rack_name(is_chosen(choice, number))))
    } else {
        None
    }
}

/// The sheets whose lines a choice takes.
#[tactic(auto, using(std::proofs::lemmas::Grind::common_steps, repair_json::proofs::Ranges::filter_map_range_more), unfolding(crate::specs::Choices::lines_to))]
fn lines_array(alloc: Global, counts: &ItemCounts, choice: usize) -> Result<Tree, AllocError>
    ensures { IfOk result (λ tree. view tree ≡ array_of (lines_to counts.now choice 12)) }
{
    let mut trees = Vec::new(alloc);
    for number in 0..MOST_ITEMS {
        push_if(&mut trees, line_taken(counts, choice, number))?;
    }
    Ok(array(trees))
}

/// The racks that a choice takes.
#[tactic(auto, using(std::proofs::lemmas::Grind::common_steps, repair_json::proofs::Ranges::filter_map_range_more), unfolding(crate::specs::Choices::racks_to))]
fn racks_array(alloc: Global, counts: &ItemCounts, choice: usize) -> Result<Tree, AllocError>
    ensures { IfOk result (λ tree. view tree ≡ array_of (racks_to counts.now choice 12)) }
{
    let mut trees = Vec::new(alloc);
    for number in 0..MOST_ITEMS {
        push_if(&mut trees, rack_taken(counts, choice, number))?;
    }
    Ok(array(trees))
}

/// A choice: the sheet whose line it takes for each pair of lines that differ, and for each pair of racks whether it takes that of the player's own sheet.
pub(crate) fn choice_tree(
    alloc: Global,
    counts: &ItemCounts,
    choice: usize,
) -> Result<Tree, AllocError>
    ensures { IfOk result (λ tree. view tree ≡ choice_object counts.now choice) }
{
    let lines = lines_array(alloc, counts, choice)?;
    let racks = racks_array(alloc, counts, choice)?;
    let fields = vec![in alloc; ("lines", lines), ("racks", racks)]?;
    Ok(object(fields))
}

/// Some choices.
pub(crate) fn choices_array(
    alloc: Global,
    counts: &ItemCounts,
    choices: &[usize],
) -> Result<Tree, AllocError>
    ensures { IfOk result (λ tree. view tree ≡ choices_value counts.now choices.now) }
{
    let mut trees = Vec::new(alloc);
    for choice in choices {
        trees.push(choice_tree(alloc, counts, *choice)?)?;
    }
    Ok(array(trees))
}

/// A choice that makes a game.
fn game_tree(alloc: Global, counts: &ItemCounts, best: &Best) -> Result<Tree, AllocError>
    ensures { IfOk result (λ tree. view tree ≡ best_object counts.now best.now) }
{
    let choice = choice_tree(alloc, counts, best.choice)?;
    let fields = vec![in alloc;
        ("choice", choice),
        ("cost", wide_tree(best.cost)),
        ("unlisted", size_tree(best.unlisted)),
    ]?;
    Ok(object(fields))
}

/// The best choice; null if none is known to make a game.
pub(crate) fn best_tree(
    alloc: Global,
    counts: &ItemCounts,
    best: &Option<Best>,
) -> Result<Tree, AllocError>
    ensures { IfOk result (λ tree. view tree ≡ or_null (option_map (best_object counts.now) best.now)) }
{
    match best {
        Some(best) => game_tree(alloc, counts, best),
        None => Ok(null_tree()),
    }
}

/// The line of an event, if there is one.
fn line_tree(event: Option<&Event>) -> Tree
    ensures { view result ≡ line_value (option_copied event.entry) }
{
    match event {
        Some(event) => count_tree(event.line),
        None => null_tree(),
    }
}

/// The line at a place of a sheet, if there is one.
fn line_at(events: &[Event], place: Option<usize>) -> Tree
    ensures { view result ≡ line_at events.now place }
{
    match place {
        Some(place) => line_tree(item_at(events, place)),
        None => null_tree(),
    }
}

/// The line of a pair on the first sheet.
fn first_line(events: &[Event], pair: Option<&Pair>) -> Tree
    ensures { view result ≡ first_line events.now (option_copied pair.entry) }
{
    match pair {
        Some(pair) => line_at(events, pair.first),
        None => null_tree(),
    }
}

/// The line of a pair on the second sheet.
fn second_line(events: &[Event], pair: Option<&Pair>) -> Tree
    ensures { view result ≡ second_line events.now (option_copied pair.entry) }
{
    match pair {
        Some(pair) => line_at(events, pair.second),
        None => null_tree(),
    }
}

/// The pair at an index, if there is one.
fn pair_at(sheets: &Sheets, at: Option<usize>) -> Option<&Pair>
    ensures { option_copied result ≡ pair_at sheets.now at }
{
    match at {
        Some(index) => item_at(sheets.pairs.as_slice(), index),
        None => None,
    }
}

/// Where an event of the pair at an index is refused.
pub(crate) fn refused_tree(
    alloc: Global,
    sheets: &Sheets,
    at: Option<usize>,
    fault: &GameFault,
) -> Result<Tree, AllocError>
    ensures { IfOk result (λ tree. view tree ≡ refused_object sheets.now at fault.now) }
{
    let pair = pair_at(sheets, at);
    let fault = game_fault_tree(alloc, fault)?;
    let fields = vec![in alloc;
        ("first", first_line(sheets.first.events.as_slice(), pair)),
        ("second", second_line(sheets.second.events.as_slice(), pair)),
        ("fault", fault),
    ]?;
    Ok(object(fields))
}

/// A choice that stops, and where.
fn stop_tree(
    alloc: Global,
    counts: &ItemCounts,
    sheets: &Sheets,
    at: Option<usize>,
    stop: &Stop,
) -> Result<Tree, AllocError>
    ensures { IfOk result (λ tree. view tree ≡ stop_object counts.now sheets.now at stop.now) }
{
    let fault = GameFault::Rule(stop.stopped.refusal.why);
    let choice = choice_tree(alloc, counts, stop.choice)?;
    let refused = refused_tree(alloc, sheets, at, &fault)?;
    let fields = vec![in alloc; ("choice", choice), ("refused", refused)]?;
    Ok(object(fields))
}

/// Where the choice that goes furthest stops; null if a choice is known to make a game.
pub(crate) fn furthest_tree(alloc: Global, answer: &ComparisonAnswer) -> Result<Tree, AllocError>
    ensures { IfOk result (λ tree. view tree
        ≡ or_null (option_map (stop_object answer.now.counts answer.now.sheets answer.now.stop_at) answer.now.comparison.furthest)) }
{
    match &answer.comparison.furthest {
        Some(stop) => stop_tree(alloc, &answer.counts, &answer.sheets, answer.stop_at, stop),
        None => Ok(null_tree()),
    }
}
