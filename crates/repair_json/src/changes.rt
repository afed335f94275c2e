//! A change, and a repair, as trees.
ghost use Rattle.std.specs.Prelude.{◌≡◌, IfOk, drop, map, option_map, take};
ghost use Rattle.std.specs.List.{filter_map};
ghost use Rattle.json_trees.specs.Trees.{view};
ghost use Rattle.json_trees.specs.Values.{array_of};
ghost use Rattle.repair_json.specs.Changes.{at_word, change_object, coming, event_value, events_value, line_in, lines_value, part_of, put_at, put_by, repair_object, replaced, single_object};

use crate::evidence::evidence_tree;
use crate::slip_names::slip_name;
use draft_numbers::numbers_to_go_by;
use gcg_drafts::Missing;
use gcg_read::{Event, Players, Record};
use gcg_write::line_text;
use json_base::item_at;
use json_trees::{
    Tree, array, count_tree, name_tree, object, push_if, size_tree, text_tree, wide_tree,
};
use repair_changes::{Change, Spot, lines_there, spot_of, weight_of, wrong_events};
use repair_single::Repair;
use std::alloc::{AllocError, Global};

/// Whether a change is on a line, before it or after it.
fn at_name(spot: Spot) -> &'static str
    ensures { result.now ≡ at_word spot }
{
    match spot {
        Spot::On(_) => "on",
        Spot::Before(_) => "before",
        Spot::After(_) => "after",
    }
}

/// The line of the file where a change is.
fn line_in(spot: Spot) -> u32
    ensures { result ≡ line_in spot }
{
    match spot {
        Spot::On(line) | Spot::Before(line) | Spot::After(line) => line,
    }
}

/// The events from a place on.
fn events_from(events: &[Event], place: usize) -> &[Event]
    ensures { result.now ≡ drop place events.now }
{
    if place < events.len() {
        &events[place..]
    } else {
        &[]
    }
}

/// The first events, or as many as there are.
#[tactic(auto, using(std::proofs::lemmas::List::take_min))]
fn first_events(events: &[Event], number: usize) -> &[Event]
    ensures { result.now ≡ take number events.now }
{
    &events[..number.min(events.len())]
}

/// So many events from a place on, or as many as there are.
fn part_of(events: &[Event], place: usize, number: usize) -> &[Event]
    ensures { result.now ≡ part_of events.now place number }
{
    first_events(events_from(events, place), number)
}

/// The events that a change replaces.
fn replaced<'a>(events: &'a [Event], change: &Change) -> &'a [Event]
    ensures { result.now ≡ replaced events.now change.now }
{
    part_of(events, change.place, wrong_events(&change.slip))
}

/// The right events that a change puts in their place.
fn coming<'a>(right: &'a [Event], change: &Change) -> &'a [Event]
    ensures { result.now ≡ coming right.now change.now }
{
    part_of(right, change.place, lines_there(&change.slip))
}

/// The lines of events.
fn lines_array(alloc: Global, events: &[Event]) -> Result<Tree, AllocError>
    ensures { IfOk result (λ tree. view tree ≡ lines_value events.now) }
{
    let mut trees = Vec::new(alloc);
    for event in events {
        trees.push(count_tree(event.line))?;
    }
    Ok(array(trees))
}

/// The line of an event, as records write it.
pub(crate) fn event_tree(
    alloc: Global,
    players: &Players,
    event: &Event,
) -> Result<Tree, AllocError>
    ensures { IfOk result (λ tree. view tree ≡ event_value players.now event.now) }
{
    let mut line = Vec::new(alloc);
    line_text(players, event, &mut line)?;
    text_tree(alloc, line.as_slice())
}

/// The lines of events, as records write them.
fn events_array(alloc: Global, players: &Players, events: &[Event]) -> Result<Tree, AllocError>
    ensures { IfOk result (λ tree. view tree ≡ events_value players.now events.now) }
{
    let mut trees = Vec::new(alloc);
    for event in events {
        trees.push(event_tree(alloc, players, event)?)?;
    }
    Ok(array(trees))
}

/// One of several changes, by the events that it changes.
pub(crate) fn change_tree(
    alloc: Global,
    players: &Players,
    events: &[Event],
    change: &Change,
    spot: Spot,
    right: &[Event],
) -> Result<Tree, AllocError>
    ensures { IfOk result (λ tree. view tree ≡ change_object players.now events.now change.now spot right.now) }
{
    let replaces = lines_array(alloc, replaced(events, change))?;
    let lines = events_array(alloc, players, coming(right, change))?;
    let fields = vec![in alloc;
        ("at", name_tree(at_name(spot))),
        ("line", count_tree(line_in(spot))),
        ("slip", name_tree(slip_name(&change.slip))),
        ("replaces", replaces),
        ("lines", lines),
    ]?;
    Ok(object(fields))
}

/// What a repair puts at its place.
pub(crate) fn put_by(
    alloc: Global,
    players: &Players,
    repair: &Repair,
) -> Result<Option<Tree>, AllocError>
    ensures { IfOk result (λ tree. option_map view tree ≡ put_by players.now repair.now) }
{
    match item_at(repair.right.as_slice(), repair.listed.change.place) {
        Some(event) => Ok(Some(event_tree(alloc, players, event)?)),
        None => Ok(None),
    }
}

/// What one of several repairs puts at its place.
fn put_at(
    alloc: Global,
    players: &Players,
    repairs: &[Repair],
    index: usize,
) -> Result<Option<Tree>, AllocError>
    ensures { IfOk result (λ tree. option_map view tree ≡ put_at players.now repairs.now index) }
{
    match item_at(repairs, index) {
        Some(repair) => put_by(alloc, players, repair),
        None => Ok(None),
    }
}

/// What some of several repairs put at their places.
#[tactic(auto, using(std::proofs::lemmas::Grind::common_steps, json_trees::proofs::Lists::kept))]
fn others_array(
    alloc: Global,
    players: &Players,
    repairs: &[Repair],
    others: &[usize],
) -> Result<Tree, AllocError>
    ensures { IfOk result (λ tree. view tree ≡ array_of (filter_map (put_at players.now repairs.now) others.now)) }
{
    let mut trees = Vec::new(alloc);
    for index in others {
        push_if(&mut trees, put_at(alloc, players, repairs, *index)?)?;
    }
    Ok(array(trees))
}

/// A repair of a record, or of a draft whose lines lack these numbers, with those that share its line.
pub(crate) fn repair_tree(
    alloc: Global,
    players: &Players,
    events: &[Event],
    lacks: &[Missing],
    repairs: &[Repair],
    repair: &Repair,
    others: &[usize],
) -> Result<Tree, AllocError>
    ensures { IfOk result (λ tree. view tree ≡ repair_object players.now events.now lacks.now repairs.now repair.now others.now) }
{
    let change = &repair.listed.change;
    let spot = spot_of(events, change);
    let numbers = numbers_to_go_by(lacks, change, events.len());
    let replaces = lines_array(alloc, replaced(events, change))?;
    let lines = events_array(alloc, players, coming(repair.right.as_slice(), change))?;
    let others = others_array(alloc, players, repairs, others)?;
    let evidence = evidence_tree(alloc, &repair.remains, numbers)?;
    let fields = vec![in alloc;
        ("at", name_tree(at_name(spot))),
        ("line", count_tree(line_in(spot))),
        ("slip", name_tree(slip_name(&change.slip))),
        ("replaces", replaces),
        ("lines", lines),
        ("others", others),
        ("weight", size_tree(weight_of(&change.slip))),
        ("cost", wide_tree(repair.remains.cost(&change.slip))),
        ("evidence", evidence),
    ]?;
    Ok(object(fields))
}

/// A single repair of these events.
///
/// # Errors
///
/// Memory was refused.
pub fn tree_by_events(
    alloc: Global,
    players: &Players,
    events: &[Event],
    repair: &Repair,
) -> Result<Tree, AllocError>
    ensures { IfOk result (λ tree. view tree ≡ single_object players.now events.now repair.now) }
{
    repair_tree(alloc, players, events, &[], &[], repair, &[])
}

/// A single repair of a record.
///
/// # Errors
///
/// Memory was refused.
pub fn single_tree(alloc: Global, game: &Record, repair: &Repair) -> Result<Tree, AllocError>
    ensures { IfOk result (λ tree. view tree ≡ single_object game.now.players game.now.events repair.now) }
{
    tree_by_events(alloc, &game.players, game.events.as_slice(), repair)
}
