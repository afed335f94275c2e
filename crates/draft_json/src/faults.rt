//! The fault of a draft as a tree.
ghost use Rattle.std.specs.Prelude.{◌≡◌, IfOk};
ghost use Rattle.json_trees.specs.Trees.{view};
ghost use Rattle.draft_json.specs.Faults.{amiss_value, amiss_word, bad_object};

use draft_answers::DraftFault;
use engine_stages::InputFault;
use gcg_drafts::Amiss;
use json_base::refused_fields;
use json_trees::{Tree, name_tree, null_tree, object, with_field_if};
use std::alloc::{AllocError, Global};

/// What is amiss with the fields of a line, by its name.
fn amiss_name(amiss: &Amiss) -> &'static str
    ensures { result.now ≡ amiss_word amiss.now }
{
    match amiss {
        Amiss::NoEvent => "no event",
        Amiss::NoWord => "no word",
        Amiss::NoScore => "no score",
        Amiss::TooMany => "too many",
    }
}

/// The same; null if the fields of the line are those of a draft.
fn amiss_tree(amiss: &Option<Amiss>) -> Tree
    ensures { view result ≡ amiss_value amiss.now }
{
    match amiss {
        None => null_tree(),
        Some(amiss) => name_tree(amiss_name(amiss)),
    }
}

/// The fault of a draft: the object of a bad record, and after its members which field the line lacks, or that it has too many.
///
/// It fails only if memory runs out.
pub fn bad_draft_tree(alloc: Global, fault: &DraftFault) -> Result<Tree, AllocError>
    ensures { IfOk result (λ tree. view tree ≡ bad_object fault.now) }
{
    let fields = refused_fields(alloc, &InputFault::Game(fault.fault))?;
    let fields = with_field_if(fields, "amiss", Some(amiss_tree(&fault.amiss)))?;
    Ok(object(fields))
}
