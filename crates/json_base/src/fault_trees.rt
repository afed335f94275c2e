//! Faults as trees.
ghost use Rattle.std.specs.Prelude.{◌≡◌, IfOk, option_map};
ghost use Rattle.std.specs.Option.{option_copied};
ghost use Rattle.json_trees.specs.Trees.{view};
ghost use Rattle.json_trees.specs.Values.{integer, object_of, text};
ghost use Rattle.json_base.specs.Faults.{bare_fault_object, bytes_in, game_fault_object, input_fault_value, named_fields, tile_value};

use crate::values::tile_tree;
use arrayvec::ArrayVec;
use engine_faults::{NamedFault, NamedInput, named_game_fault};
use engine_stages::GameFault;
use json_trees::{Tree, integer_tree, name_tree, null_tree, object, text_tree, with_field_if};
use ref_tiles::Kind;
use std::alloc::{AllocError, Global};

/// A fault by its name alone.
pub fn bare_fault_tree(alloc: Global, name: &'static str) -> Result<Tree, AllocError>
    ensures { IfOk result (λ tree. view tree ≡ bare_fault_object name.now) }
{
    let fields = vec![in alloc; ("name", name_tree(name))]?;
    Ok(object(fields))
}

/// The number that was expected, if there is one.
fn expected_tree(expected: Option<i32>) -> Option<Tree>
    ensures { option_map view result ≡ option_map integer expected }
{
    match expected {
        Some(number) => Some(integer_tree(number)),
        None => None,
    }
}

/// The kind of tile that is short, if there is one.
fn short_tree(alloc: Global, kind: Option<Kind>) -> Result<Option<Tree>, AllocError>
    ensures { IfOk result (λ tree. option_map view tree ≡ option_map tile_value kind) }
{
    match kind {
        Some(kind) => Ok(Some(tile_tree(alloc, kind)?)),
        None => Ok(None),
    }
}

/// A fault by its name, with what goes with it.
fn named_tree(alloc: Global, named: &NamedFault) -> Result<Tree, AllocError>
    ensures { IfOk result (λ tree. view tree ≡ object_of (named_fields named.now)) }
{
    let tile = short_tree(alloc, named.kind)?;
    let fields = vec![in alloc; ("name", name_tree(named.name.text()))]?;
    let fields = with_field_if(fields, "expected", expected_tree(named.expected))?;
    let fields = with_field_if(fields, "tile", tile)?;
    Ok(object(fields))
}

/// A fault of a game.
pub fn game_fault_tree(alloc: Global, fault: &GameFault) -> Result<Tree, AllocError>
    ensures { IfOk result (λ tree. view tree ≡ game_fault_object fault.now) }
{
    let named = named_game_fault(fault);
    named_tree(alloc, &named)
}

/// The path of the first difference between a lexicon and a list, if there is one.
fn path_tree(alloc: Global, path: &Option<ArrayVec<u8, 17>>) -> Result<Option<Tree>, AllocError>
    ensures { IfOk result (λ tree. option_map view tree ≡ option_map text (bytes_in path.now)) }
{
    match path {
        Some(path) => Ok(Some(text_tree(alloc, path.as_slice())?)),
        None => Ok(None),
    }
}

/// The fault of an input; null if it has no name.
pub fn input_fault_tree(alloc: Global, named: &NamedInput) -> Result<Tree, AllocError>
    ensures { IfOk result (λ tree. view tree ≡ input_fault_value
        (option_copied named.now.name) (bytes_in named.now.path)) }
{
    let Some(name) = named.name else {
        return Ok(null_tree());
    };
    let path = path_tree(alloc, &named.path)?;
    let fields = vec![in alloc; ("name", name_tree(name))]?;
    let fields = with_field_if(fields, "path", path)?;
    Ok(object(fields))
}
