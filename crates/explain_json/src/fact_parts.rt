//! What facts of several families have, as trees.
ghost use Rattle.std.specs.Prelude.{◌≡◌, IfOk};
ghost use Rattle.json_trees.specs.Trees.{view};
ghost use Rattle.explain_json.specs.Parts.{bare, byte_value, numbers_value, square_value, words_value};

use game_turns::SpelledWord;
use json_base::place_tree;
use json_trees::{Tree, array, count_tree, name_tree, object, size_tree, text_tree};
use ref_board::{Dir, Square};
use std::alloc::{AllocError, Global};

/// A fact that has only its name.
pub fn bare_tree(alloc: Global, name: &'static str) -> Result<Tree, AllocError>
    ensures { IfOk result (λ tree. view tree ≡ bare name.now) }
{
    let fields = vec![in alloc; ("name", name_tree(name))]?;
    Ok(object(fields))
}

/// A square by its row and its column: `8H`.
pub fn square_tree(alloc: Global, square: Square) -> Result<Tree, AllocError>
    ensures { IfOk result (λ tree. view tree ≡ square_value square) }
{
    place_tree(alloc, square, Dir::Across)
}

/// A letter or a tile by its byte.
pub fn byte_tree(alloc: Global, byte: u8) -> Result<Tree, AllocError>
    ensures { IfOk result (λ tree. view tree ≡ byte_value byte) }
{
    let bytes = vec![in alloc; byte]?;
    text_tree(alloc, bytes.as_slice())
}

/// Words as texts.
pub fn words_tree(alloc: Global, words: &[SpelledWord]) -> Result<Tree, AllocError>
    ensures { IfOk result (λ tree. view tree ≡ words_value words.now) }
{
    let mut trees = Vec::new(alloc);
    for word in words {
        trees.push(text_tree(alloc, word.letters.as_slice())?)?;
    }
    Ok(array(trees))
}

/// Numbers of lines.
pub fn lines_tree(alloc: Global, lines: &[u32]) -> Result<Tree, AllocError>
    ensures { IfOk result (λ tree. view tree ≡ numbers_value lines.now) }
{
    let mut trees = Vec::new(alloc);
    for line in lines {
        trees.push(count_tree(*line))?;
    }
    Ok(array(trees))
}

/// Numbers.
pub fn numbers_tree(alloc: Global, numbers: &[usize]) -> Result<Tree, AllocError>
    ensures { IfOk result (λ tree. view tree ≡ numbers_value numbers.now) }
{
    let mut trees = Vec::new(alloc);
    for number in numbers {
        trees.push(size_tree(*number))?;
    }
    Ok(array(trees))
}
