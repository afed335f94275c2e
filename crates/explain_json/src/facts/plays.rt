//! Facts about the text or the placement of a play, as trees.
ghost use Rattle.std.specs.Prelude.{◌≡◌, IfOk};
ghost use Rattle.json_trees.specs.Trees.{view};
ghost use Rattle.explain_json.specs.Plays.{end_object, letter_object, count_object, play_object, square_object, tile_object};

use crate::fact_parts::{bare_tree, byte_tree, square_tree};
use explain_facts::PlayFact;
use json_base::direction_of;
use json_trees::{Tree, count_tree, name_tree, object, size_tree};
use ref_board::{Dir, Square};
use std::alloc::{AllocError, Global};

/// That a play leaves the board.
fn end_fact(
    alloc: Global,
    at: Square,
    dir: Dir,
    squares: usize,
    room: usize,
) -> Result<Tree, AllocError>
    ensures { IfOk result (λ tree. view tree ≡ end_object at dir squares room) }
{
    let square = square_tree(alloc, at)?;
    let fields = vec![in alloc;
        ("name", name_tree("LeavesBoard")),
        ("square", square),
        ("direction", name_tree(direction_of(dir))),
        ("number", size_tree(squares)),
        ("limit", size_tree(room)),
    ]?;
    Ok(object(fields))
}

/// A fact of this name about a square.
fn square_fact(alloc: Global, name: &'static str, square: Square) -> Result<Tree, AllocError>
    ensures { IfOk result (λ tree. view tree ≡ square_object name.now square) }
{
    let square = square_tree(alloc, square)?;
    let fields = vec![in alloc; ("name", name_tree(name)), ("square", square)]?;
    Ok(object(fields))
}

/// A fact of this name about the tile on a square.
fn tile_fact(
    alloc: Global,
    name: &'static str,
    square: Square,
    shown: u8,
) -> Result<Tree, AllocError>
    ensures { IfOk result (λ tree. view tree ≡ tile_object name.now square shown) }
{
    let square = square_tree(alloc, square)?;
    let shown = byte_tree(alloc, shown)?;
    let fields = vec![in alloc;
        ("name", name_tree(name)),
        ("square", square),
        ("tile", shown),
    ]?;
    Ok(object(fields))
}

/// That a play has another letter than the tile on a square.
fn letter_fact(alloc: Global, square: Square, written: u8, shown: u8) -> Result<Tree, AllocError>
    ensures { IfOk result (λ tree. view tree ≡ letter_object square written shown) }
{
    let square = square_tree(alloc, square)?;
    let written = byte_tree(alloc, written)?;
    let shown = byte_tree(alloc, shown)?;
    let fields = vec![in alloc;
        ("name", name_tree("OtherLetter")),
        ("square", square),
        ("letter", written),
        ("tile", shown),
    ]?;
    Ok(object(fields))
}

/// That a play puts down more tiles than a rack has.
fn count_fact(alloc: Global, tiles: usize) -> Result<Tree, AllocError>
    ensures { IfOk result (λ tree. view tree ≡ count_object tiles) }
{
    let fields = vec![in alloc;
        ("name", name_tree("ManyTiles")),
        ("number", size_tree(tiles)),
        ("limit", count_tree(7)),
    ]?;
    Ok(object(fields))
}

/// A fact.
pub fn play_tree(alloc: Global, fact: &PlayFact) -> Result<Tree, AllocError>
    ensures { IfOk result (λ tree. view tree ≡ play_object fact.now) }
{
    match fact {
        PlayFact::LeavesBoard {
            at,
            dir,
            squares,
            room,
        } => end_fact(alloc, *at, *dir, *squares, *room),
        PlayFact::DotOnEmpty { square } => square_fact(alloc, "DotOnEmpty", *square),
        PlayFact::OtherLetter {
            square,
            written,
            shown,
        } => letter_fact(alloc, *square, *written, *shown),
        PlayFact::NoNewTile => bare_tree(alloc, "NoNewTile"),
        PlayFact::ManyTiles { tiles } => count_fact(alloc, *tiles),
        PlayFact::TileBefore { square, letter } => tile_fact(alloc, "TileBefore", *square, *letter),
        PlayFact::TileAfter { square, letter } => tile_fact(alloc, "TileAfter", *square, *letter),
        PlayFact::NotWhole => bare_tree(alloc, "NotWhole"),
        PlayFact::MissesCentre => bare_tree(alloc, "MissesCentre"),
        PlayFact::TooShort => bare_tree(alloc, "TooShort"),
        PlayFact::Apart => bare_tree(alloc, "Apart"),
    }
}
