//! The words of a play as trees.
ghost use Rattle.std.specs.Prelude.{◌≡◌, IfOk, map};
ghost use Rattle.json_trees.specs.Trees.{view};
ghost use Rattle.json_trees.specs.Values.{array_of};
ghost use Rattle.explain_json.specs.Words.{cell_value, premium_value, scored_object, square_object, word_object};

use crate::fact_parts::{byte_tree, square_tree};
use explain_clues::{PlayedSquare, PlayedWord, ScoredPlay};
use game_board::tile_mark;
use json_trees::{
    Tree, array, bool_tree, count_or_null, count_tree, integer_tree, name_tree, null_tree, object,
    text_tree,
};
use ref_tiles::{Premium, Tile};
use std::alloc::{AllocError, Global};

/// The name of a premium; null if there is none.
fn premium_tree(premium: Premium) -> Tree
    ensures { view result ≡ premium_value premium }
{
    match premium {
        Premium::Plain => null_tree(),
        Premium::DoubleLetter => name_tree("double letter"),
        Premium::TripleLetter => name_tree("triple letter"),
        Premium::DoubleWord => name_tree("double word"),
        Premium::TripleWord => name_tree("triple word"),
    }
}

/// The letter of a tile, small for a blank.
fn cell_tree(alloc: Global, cell: &Option<Tile>) -> Result<Tree, AllocError>
    ensures { IfOk result (λ tree. view tree ≡ cell_value cell.now) }
{
    match cell {
        None => text_tree(alloc, &[]),
        Some(tile) => byte_tree(alloc, tile_mark(tile)),
    }
}

/// A square of a word.
fn played_square_tree(alloc: Global, it: &PlayedSquare) -> Result<Tree, AllocError>
    ensures { IfOk result (λ tree. view tree ≡ square_object it.now) }
{
    let square = square_tree(alloc, it.square)?;
    let tile = cell_tree(alloc, &it.cell)?;
    let fields = vec![in alloc;
        ("square", square),
        ("tile", tile),
        ("new", bool_tree(it.is_new)),
        ("points", count_tree(u32::from(it.points))),
        ("premium", premium_tree(it.premium)),
        ("factor", count_tree(it.factor)),
        ("adds", count_tree(it.adds)),
    ]?;
    Ok(object(fields))
}

/// The squares of a word.
fn squares_array(alloc: Global, squares: &[PlayedSquare]) -> Result<Tree, AllocError>
    ensures { IfOk result (λ tree. view tree ≡ array_of (map square_object squares.now)) }
{
    let mut trees = Vec::new(alloc);
    for square in squares {
        trees.push(played_square_tree(alloc, square)?)?;
    }
    Ok(array(trees))
}

/// A word of a play.
fn word_tree(alloc: Global, it: &PlayedWord) -> Result<Tree, AllocError>
    ensures { IfOk result (λ tree. view tree ≡ word_object it.now) }
{
    let letters = text_tree(alloc, it.letters.as_slice())?;
    let squares = squares_array(alloc, it.squares.as_slice())?;
    let fields = vec![in alloc;
        ("word", letters),
        ("listed", bool_tree(it.is_listed)),
        ("squares", squares),
        ("sum", count_tree(it.letters_sum)),
        ("factor", count_tree(it.factor)),
        ("score", count_tree(it.score)),
    ]?;
    Ok(object(fields))
}

/// The words of a play.
fn words_array(alloc: Global, words: &[PlayedWord]) -> Result<Tree, AllocError>
    ensures { IfOk result (λ tree. view tree ≡ array_of (map word_object words.now)) }
{
    let mut trees = Vec::new(alloc);
    for word in words {
        trees.push(word_tree(alloc, word)?)?;
    }
    Ok(array(trees))
}

/// The words of a play, and what they add up to.
pub fn scored_tree(alloc: Global, it: &ScoredPlay) -> Result<Tree, AllocError>
    ensures { IfOk result (λ tree. view tree ≡ scored_object it.now) }
{
    let words = words_array(alloc, it.words.as_slice())?;
    let fields = vec![in alloc;
        ("words", words),
        ("bonus", count_or_null(it.bonus)),
        ("score", integer_tree(it.score)),
    ]?;
    Ok(object(fields))
}
