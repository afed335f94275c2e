//! The best plays before a line of a record as a tree.
ghost use Rattle.std.specs.Prelude.{◌≡◌, IfOk, map};
ghost use Rattle.json_trees.specs.Trees.{view};
ghost use Rattle.json_trees.specs.Values.{array_of};
ghost use Rattle.game_json.specs.Plays.{found_object, play_object, plays_object};

use game_answers::{FoundPlays, ScoredPlay};
use json_base::{direction_of, place_tree, symbols_tree, tiles_tree, verdict_tree};
use json_trees::{Tree, array, integer_tree, name_tree, null_tree, object};
use ref_tiles::Counts;
use std::alloc::{AllocError, Global};

/// A play.
fn play_tree(alloc: Global, play: &ScoredPlay) -> Result<Tree, AllocError>
    ensures { IfOk result (λ tree. view tree ≡ play_object play.now) }
{
    let written = &play.written;
    let place = place_tree(alloc, written.at, written.dir)?;
    let symbols = symbols_tree(alloc, written.word.as_slice())?;
    let fields = vec![in alloc;
        ("place", place),
        ("direction", name_tree(direction_of(written.dir))),
        ("text", symbols),
        ("score", integer_tree(play.score)),
    ]?;
    Ok(object(fields))
}

/// Plays, in their order.
fn plays_array(alloc: Global, plays: &[ScoredPlay]) -> Result<Tree, AllocError>
    ensures { IfOk result (λ tree. view tree ≡ array_of (map play_object plays.now)) }
{
    let mut trees = Vec::new(alloc);
    for play in plays {
        trees.push(play_tree(alloc, play)?)?;
    }
    Ok(array(trees))
}

/// The best plays by a rack.
fn plays_tree(alloc: Global, rack: &Counts, plays: &[ScoredPlay]) -> Result<Tree, AllocError>
    ensures { IfOk result (λ tree. view tree ≡ plays_object rack.now plays.now) }
{
    let rack = tiles_tree(alloc, rack)?;
    let plays = plays_array(alloc, plays)?;
    let fields = vec![in alloc;
        ("verdict", name_tree("ok")),
        ("line", null_tree()),
        ("fault", null_tree()),
        ("rack", rack),
        ("plays", plays),
    ]?;
    Ok(object(fields))
}

/// What is found for a question about the best plays before a line: the rack and the plays, or the verdict that says why there are none.
pub fn found_tree(alloc: Global, found: &FoundPlays) -> Result<Tree, AllocError>
    ensures { IfOk result (λ tree. view tree ≡ found_object found.now) }
{
    match found {
        FoundPlays::Plays { rack, plays } => plays_tree(alloc, rack, plays.as_slice()),
        FoundPlays::Refused { .. } | FoundPlays::NoRack | FoundPlays::NoLine => {
            verdict_tree(alloc, &found.verdict())
        }
    }
}
