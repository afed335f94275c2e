//! What repairs a text that is not a record, as a tree.
ghost use Rattle.std.specs.Prelude.{◌≡◌, IfOk, map};
ghost use Rattle.json_trees.specs.Trees.{view};
ghost use Rattle.json_trees.specs.Values.{array_of};
ghost use Rattle.repair_json.specs.BadRecords.{bad_object, found_in, missing_place, slip_object};

use crate::evidence::evidence_tree;
use crate::slip_names::sheet_slip_name;
use engine_stages::InputFault;
use gcg_read::ReadFault;
use json_base::{place_tree, refused_fields};
use json_trees::{
    Tree, array, bool_tree, count_tree, name_tree, null_tree, object, size_tree, wide_tree,
    with_field_if,
};
use repair_answers::{LineRepairs, SheetRepair};
use repair_sheets::{SheetSlip, weight_of};
use std::alloc::{AllocError, Global};

/// The place that a line should have; null if that is not what is wrong.
fn missing_place(alloc: Global, slip: &SheetSlip) -> Result<Tree, AllocError>
    ensures { IfOk result (λ tree. view tree ≡ missing_place slip.now) }
{
    match slip {
        SheetSlip::NoPlace { at, dir, .. } => place_tree(alloc, *at, *dir),
        SheetSlip::Unread(_) | SheetSlip::ExtraMark { .. } | SheetSlip::Running { .. } => {
            Ok(null_tree())
        }
    }
}

/// A slip of the line with this number that repairs a text.
fn slip_tree(alloc: Global, line: u32, repair: &SheetRepair) -> Result<Tree, AllocError>
    ensures { IfOk result (λ tree. view tree ≡ slip_object line repair.now) }
{
    let numbers = 2 * repair.right.len() as u128;
    let place = missing_place(alloc, &repair.slip)?;
    let evidence = evidence_tree(alloc, &repair.alone.remains, numbers)?;
    let fields = vec![in alloc;
        ("slip", name_tree(sheet_slip_name(&repair.slip))),
        ("line", count_tree(line)),
        ("place", place),
        ("settled", bool_tree(repair.alone.is_game)),
        ("weight", size_tree(weight_of(&repair.slip))),
        ("cost", wide_tree(repair.cost)),
        ("evidence", evidence),
    ]?;
    Ok(object(fields))
}

/// The slips of a line that were found to repair a text.
fn found_in(repairs: &Option<LineRepairs>) -> &[SheetRepair]
    ensures { result.now ≡ found_in repairs.now }
{
    match repairs {
        Some(repairs) => repairs.found.as_slice(),
        None => &[],
    }
}

/// The slips of the line with this number that repair a text.
fn slips_array(alloc: Global, line: u32, repairs: &[SheetRepair]) -> Result<Tree, AllocError>
    ensures { IfOk result (λ tree. view tree ≡ array_of (map (slip_object line) repairs.now)) }
{
    let mut trees = Vec::new(alloc);
    for repair in repairs {
        trees.push(slip_tree(alloc, line, repair)?)?;
    }
    Ok(array(trees))
}

/// That a text is not a record, and what repairs it.
///
/// # Errors
///
/// Memory was refused.
pub fn bad_tree(
    alloc: Global,
    fault: ReadFault,
    repairs: &Option<LineRepairs>,
) -> Result<Tree, AllocError>
    ensures { IfOk result (λ tree. view tree ≡ bad_object fault repairs.now) }
{
    let slips = slips_array(alloc, fault.line, found_in(repairs))?;
    let fields = refused_fields(alloc, &InputFault::Game(fault))?;
    let fields = with_field_if(fields, "line_slips", Some(slips))?;
    Ok(object(fields))
}
