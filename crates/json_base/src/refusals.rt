//! That an input is bad, and why the program could not finish.
ghost use Rattle.std.specs.Prelude.{◌≡◌, ◌++◌, IfOk, OnOk};
ghost use Rattle.std.specs.Option.{option_copied};
ghost use Rattle.json_trees.specs.Texts.{json_line};
ghost use Rattle.json_trees.specs.Trees.{fields_view, view};
ghost use Rattle.json_base.specs.Refusals.{bad_record_object, checked_object, decision_object, no_game_object, refused_fields, refused_object, trouble_object};

use crate::fault_trees::input_fault_tree;
use crate::values::{line_tree, unread_array};
use crate::verdicts::verdict_tree;
use engine_faults::named_input;
use engine_stages::{Decision, InputFault};
use gcg_read::ReadFault;
use gcg_unread::UnreadLine;
use json_trees::{Tree, name_tree, null_tree, object, push_tree_line, size_tree, str_or_null};
use std::alloc::{AllocError, Global};

/// That an input is bad, as the fields of an object: which one, the line of the fault and the fault.
pub fn refused_fields(
    alloc: Global,
    fault: &InputFault,
) -> Result<Vec<(&'static str, Tree)>, AllocError>
    ensures { IfOk result (λ fields. fields_view fields.items ≡ refused_fields fault.now) }
{
    let named = named_input(fault);
    let fault = input_fault_tree(alloc, &named)?;
    let fields = vec![in alloc;
        ("verdict", name_tree(named.what)),
        ("line", line_tree(named.line)),
        ("fault", fault),
    ]?;
    Ok(fields)
}

/// That an input is bad: which one, the line of the fault and the fault.
pub fn refused_tree(alloc: Global, fault: &InputFault) -> Result<Tree, AllocError>
    ensures { IfOk result (λ tree. view tree ≡ refused_object fault.now) }
{
    Ok(object(refused_fields(alloc, fault)?))
}

/// That an input is bad, or a verdict.
pub fn decision_tree(alloc: Global, decision: &Decision) -> Result<Tree, AllocError>
    ensures { IfOk result (λ tree. view tree ≡ decision_object decision.now) }
{
    match &decision.fault {
        Some(fault) => refused_tree(alloc, fault),
        None => verdict_tree(alloc, &decision.verdict),
    }
}

/// That a text is not a record.
pub fn bad_record_tree(alloc: Global, fault: ReadFault) -> Result<Tree, AllocError>
    ensures { IfOk result (λ tree. view tree ≡ bad_record_object fault) }
{
    refused_tree(alloc, &InputFault::Game(fault))
}

/// That a record has no event, with the lines that are not read.
pub fn no_game_tree(alloc: Global, unread: &[UnreadLine]) -> Result<Tree, AllocError>
    ensures { IfOk result (λ tree. view tree ≡ no_game_object unread.now) }
{
    let unread = unread_array(alloc, unread)?;
    let fields = vec![in alloc;
        ("verdict", name_tree("no game")),
        ("line", null_tree()),
        ("fault", null_tree()),
        ("unread_lines", unread),
    ]?;
    Ok(object(fields))
}

/// Why the program could not finish, and the name of the file that it was about, if there is one.
pub fn trouble_tree(
    alloc: Global,
    what: &'static str,
    file: Option<&str>,
) -> Result<Tree, AllocError>
    ensures { IfOk result (λ tree. view tree ≡ trouble_object what.now (option_copied file.entry)) }
{
    let file = str_or_null(alloc, file)?;
    let fields = vec![in alloc;
        ("verdict", name_tree(what)),
        ("line", null_tree()),
        ("fault", null_tree()),
        ("file", file),
    ]?;
    Ok(object(fields))
}

/// That a lexicon is that of a word list of `words` words.
pub fn checked_tree(alloc: Global, words: usize) -> Result<Tree, AllocError>
    ensures { IfOk result (λ tree. view tree ≡ checked_object words) }
{
    let fields = vec![in alloc;
        ("verdict", name_tree("ok")),
        ("line", null_tree()),
        ("fault", null_tree()),
        ("words", size_tree(words)),
    ]?;
    Ok(object(fields))
}

/// Appends that an input is bad: the verdict, the line of the fault and the fault.
pub fn push_refusal(
    alloc: Global,
    text: &mut Vec<u8>,
    decision: &Decision,
) -> Result<(), AllocError>
    ensures { OnOk result (text.new.items ≡ text.old.items ++ json_line (decision_object decision.now)) }
{
    let tree = decision_tree(alloc, decision)?;
    push_tree_line(text, &tree)
}

/// Appends why the program could not finish, and the name of the file that it was about, if there is one.
pub fn push_trouble(
    alloc: Global,
    text: &mut Vec<u8>,
    what: &'static str,
    file: Option<&str>,
) -> Result<(), AllocError>
    ensures { OnOk result (text.new.items ≡ text.old.items ++ json_line (trouble_object what.now (option_copied file.entry))) }
{
    let tree = trouble_tree(alloc, what, file)?;
    push_tree_line(text, &tree)
}
