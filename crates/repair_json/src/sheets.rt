//! A slip of the whole sheet as a tree.
ghost use Rattle.std.specs.Prelude.{◌≡◌, ◌++◌, [], IfOk, OnOk, map};
ghost use Rattle.std.specs.List.{cons_option};
ghost use Rattle.std.specs.Option.{option_copied};
ghost use Rattle.json_trees.specs.Trees.{view};
ghost use Rattle.repair_json.specs.Changes.{event_value, events_value};
ghost use Rattle.repair_json.specs.Sheets.{changed_at, changed_events, changed_lines, first_of, is_changed, line_of, numbers_value, sheet_evidence, sheet_object, whole_object};

use crate::changes::event_tree;
use crate::evidence::evidence_tree;
use crate::slip_names::sheet_slip_name;
use gcg_read::{Event, Players};
use json_base::item_at;
use json_trees::{Tree, array, bool_tree, count_tree, name_tree, object, size_tree, wide_tree};
use repair_answers::SheetRepair;
use repair_sheets::{SheetSlip, changes, weight_of};
use std::alloc::{AllocError, Global};

/// Whether a slip changes the line of an event, which has this place among the right ones.
fn is_changed(slip: &SheetSlip, place: usize, event: &Event) -> bool
    ensures { result ≡ is_changed slip.now place event.now }
{
    match slip {
        SheetSlip::Unread(unread) => unread.line == event.line,
        SheetSlip::ExtraMark { number } | SheetSlip::NoPlace { number, .. } => *number
            == event.line,
        SheetSlip::Running { place: first, slip } => *first <= place && changes(*slip, &event.kind),
    }
}

/// The event at a place among the right ones, if a slip changes its line.
fn changed_at<'a>(slip: &SheetSlip, right: &'a [Event], place: usize) -> Option<&'a Event>
    ensures { option_copied result ≡ changed_at slip.now right.now place }
{
    match item_at(right, place) {
        Some(event) => {
            if is_changed(slip, place, event) {
                Some(event)
            } else {
                None
            }
        }
        None => None,
    }
}

/// Appends the line of an event, if there is one.
fn push_line_number(lines: &mut Vec<u32>, event: Option<&Event>) -> Result<(), AllocError>
    ensures { OnOk result (lines.new.items ≡ lines.old.items ++ map line_of (cons_option (option_copied event.entry) [])) }
{
    if let Some(event) = event {
        lines.push(event.line)?;
    }
    Ok(())
}

/// The lines of the events that a slip changes.
#[tactic(auto, using(std::proofs::lemmas::Grind::common_steps, crate::proofs::Ranges::filter_map_range_more))]
fn changed_lines(alloc: Global, repair: &SheetRepair) -> Result<Vec<u32>, AllocError>
    ensures { IfOk result (λ lines. lines.items ≡ changed_lines repair.now) }
{
    let slip = &repair.slip;
    let right = repair.right.as_slice();
    let mut lines = Vec::new(alloc);
    for place in 0..right.len() {
        push_line_number(&mut lines, changed_at(slip, right, place))?;
    }
    Ok(lines)
}

/// Appends the line of an event as records write it, if there is one.
fn push_event(
    alloc: Global,
    trees: &mut Vec<Tree>,
    players: &Players,
    event: Option<&Event>,
) -> Result<(), AllocError>
    ensures { OnOk result (map view trees.new.items
        ≡ map view trees.old.items ++ map (event_value players.now) (cons_option (option_copied event.entry) [])) }
{
    if let Some(event) = event {
        trees.push(event_tree(alloc, players, event)?)?;
    }
    Ok(())
}

/// The right lines of the events that a slip changes.
#[tactic(auto, using(std::proofs::lemmas::Grind::common_steps, crate::proofs::Ranges::filter_map_range_more))]
fn changed_array(alloc: Global, players: &Players, repair: &SheetRepair) -> Result<Tree, AllocError>
    ensures { IfOk result (λ tree. view tree ≡ events_value players.now (changed_events repair.now)) }
{
    let slip = &repair.slip;
    let right = repair.right.as_slice();
    let mut trees = Vec::new(alloc);
    for place in 0..right.len() {
        push_event(alloc, &mut trees, players, changed_at(slip, right, place))?;
    }
    Ok(array(trees))
}

/// The first of some lines, or 0.
fn first_of(lines: &[u32]) -> u32
    ensures { result ≡ first_of lines.now }
{
    match lines {
        [first, ..] => *first,
        [] => 0,
    }
}

/// The numbers of lines.
fn numbers_array(alloc: Global, lines: &[u32]) -> Result<Tree, AllocError>
    ensures { IfOk result (λ tree. view tree ≡ numbers_value lines.now) }
{
    let mut trees = Vec::new(alloc);
    for line in lines {
        trees.push(count_tree(*line))?;
    }
    Ok(array(trees))
}

/// What stays wrong without a slip.
fn sheet_evidence(alloc: Global, repair: &SheetRepair) -> Result<Tree, AllocError>
    ensures { IfOk result (λ tree. view tree ≡ sheet_evidence repair.now) }
{
    let numbers = 2 * repair.right.len() as u128;
    evidence_tree(alloc, &repair.alone.remains, numbers)
}

/// A slip of the whole sheet that repairs a record.
pub(crate) fn sheet_tree(
    alloc: Global,
    players: &Players,
    repair: &SheetRepair,
) -> Result<Tree, AllocError>
    ensures { IfOk result (λ tree. view tree ≡ sheet_object players.now repair.now) }
{
    let numbers = changed_lines(alloc, repair)?;
    let replaces = numbers_array(alloc, numbers.as_slice())?;
    let lines = changed_array(alloc, players, repair)?;
    let evidence = sheet_evidence(alloc, repair)?;
    let fields = vec![in alloc;
        ("slip", name_tree(sheet_slip_name(&repair.slip))),
        ("line", count_tree(first_of(numbers.as_slice()))),
        ("replaces", replaces),
        ("lines", lines),
        ("settled", bool_tree(repair.alone.is_game)),
        ("weight", size_tree(weight_of(&repair.slip))),
        ("cost", wide_tree(repair.cost)),
        ("evidence", evidence),
    ]?;
    Ok(object(fields))
}

/// A slip of the whole sheet that repairs a record, as a single repair: the lines of the sheet that it changes, and the right lines.
///
/// # Errors
///
/// Memory was refused.
pub fn whole_tree(
    alloc: Global,
    players: &Players,
    repair: &SheetRepair,
) -> Result<Tree, AllocError>
    ensures { IfOk result (λ tree. view tree ≡ whole_object players.now repair.now) }
{
    let numbers = changed_lines(alloc, repair)?;
    let replaces = numbers_array(alloc, numbers.as_slice())?;
    let lines = changed_array(alloc, players, repair)?;
    let evidence = sheet_evidence(alloc, repair)?;
    let others = Vec::new(alloc);
    let fields = vec![in alloc;
        ("at", name_tree("on")),
        ("line", count_tree(first_of(numbers.as_slice()))),
        ("slip", name_tree(sheet_slip_name(&repair.slip))),
        ("replaces", replaces),
        ("lines", lines),
        ("others", array(others)),
        ("weight", size_tree(weight_of(&repair.slip))),
        ("cost", wide_tree(repair.cost)),
        ("evidence", evidence),
    ]?;
    Ok(object(fields))
}
