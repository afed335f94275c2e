//! Facts about a record as a whole, as trees.
ghost use Rattle.std.specs.Prelude.{◌≡◌, IfOk, map, option_map};
ghost use Rattle.json_trees.specs.Trees.{view};
ghost use Rattle.json_trees.specs.Values.{array_of};
ghost use Rattle.explain_json.specs.Games.{game_object, hidden_object, parts_if, plays_object, unlisted_object};

use crate::fact_lines::part_lines;
use crate::fact_parts::{bare_tree, lines_tree, words_tree};
use explain_facts::{GameFact, RackPart, UnlistedPlay};
use json_base::number_of;
use json_trees::{Tree, array, count_tree, name_tree, object, size_tree, with_field_if};
use std::alloc::{AllocError, Global};

/// A play that stands with words that are not in the word list.
fn unlisted_tree(alloc: Global, play: &UnlistedPlay) -> Result<Tree, AllocError>
    ensures { IfOk result (λ tree. view tree ≡ unlisted_object play.now) }
{
    let words = words_tree(alloc, play.words.as_slice())?;
    let fields = vec![in alloc;
        ("line", count_tree(play.line)),
        ("player", count_tree(number_of(play.player))),
        ("words", words),
    ]?;
    Ok(object(fields))
}

/// Plays that stand with words that are not in the word list.
fn unlisted_array(alloc: Global, plays: &[UnlistedPlay]) -> Result<Tree, AllocError>
    ensures { IfOk result (λ tree. view tree ≡ array_of (map unlisted_object plays.now)) }
{
    let mut trees = Vec::new(alloc);
    for play in plays {
        trees.push(unlisted_tree(alloc, play)?)?;
    }
    Ok(array(trees))
}

/// Which plays stand with words that are not in the word list.
fn plays_fact(alloc: Global, plays: &[UnlistedPlay]) -> Result<Tree, AllocError>
    ensures { IfOk result (λ tree. view tree ≡ plays_object plays.now) }
{
    let plays = unlisted_array(alloc, plays)?;
    let fields = vec![in alloc; ("name", name_tree("Unlisted")), ("plays", plays)]?;
    Ok(object(fields))
}

/// The turns of which only a part of the rack is shown, if there are any.
fn parts_tree(alloc: Global, parts: &[RackPart]) -> Result<Option<Tree>, AllocError>
    ensures { IfOk result (λ tree. option_map view tree ≡ parts_if parts.now) }
{
    match parts {
        [] => Ok(None),
        [_, ..] => Ok(Some(part_lines(alloc, parts)?)),
    }
}

/// On which turns no rack is shown, and on which only a part of it.
fn hidden_fact(
    alloc: Global,
    lines: &[u32],
    parts: &[RackPart],
    turns: usize,
) -> Result<Tree, AllocError>
    ensures { IfOk result (λ tree. view tree ≡ hidden_object lines.now parts.now turns) }
{
    let parts = parts_tree(alloc, parts)?;
    let on_lines = lines_tree(alloc, lines)?;
    let fields = vec![in alloc;
        ("name", name_tree("RacksHidden")),
        ("number", size_tree(lines.len())),
        ("limit", size_tree(turns)),
    ]?;
    let fields = with_field_if(fields, "lines", parts)?;
    let fields = with_field_if(fields, "on_lines", Some(on_lines))?;
    Ok(object(fields))
}

/// A fact.
pub fn game_tree(alloc: Global, fact: &GameFact) -> Result<Tree, AllocError>
    ensures { IfOk result (λ tree. view tree ≡ game_object fact.now) }
{
    match fact {
        GameFact::NoEvent => bare_tree(alloc, "NoEvent"),
        GameFact::Legal => bare_tree(alloc, "Legal"),
        GameFact::Unsettled => bare_tree(alloc, "Unsettled"),
        GameFact::Unlisted { plays } => plays_fact(alloc, plays.as_slice()),
        GameFact::OtherList => bare_tree(alloc, "OtherList"),
        GameFact::RacksHidden {
            lines,
            parts,
            turns,
        } => hidden_fact(alloc, lines.as_slice(), parts.as_slice(), *turns),
    }
}
