//! The ruling on words as a tree.
ghost use Rattle.std.specs.Prelude.{◌≡◌, IfOk, length, option_map};
ghost use Rattle.std.specs.List.{filter_map, range_with_len};
ghost use Rattle.json_trees.specs.Trees.{view};
ghost use Rattle.json_trees.specs.Values.{array_of};
ghost use Rattle.sheet_json.specs.Rulings.{no_word_object, ruling_name, ruling_object, word_at, word_object, word_with};

use json_base::item_at;
use json_trees::{Tree, array, bool_tree, name_tree, null_tree, object, push_if, text_tree};
use lex_rulings::{AskedWord, Ruling};
use std::alloc::{AllocError, Global};

/// A word, and whether it is in the list.
fn word_tree(alloc: Global, word: &AskedWord, acceptable: bool) -> Result<Tree, AllocError>
    ensures { IfOk result (λ tree. view tree ≡ word_object word.now acceptable) }
{
    let letters = text_tree(alloc, word.letters.as_slice())?;
    let fields = vec![in alloc; ("word", letters), ("acceptable", bool_tree(acceptable))]?;
    Ok(object(fields))
}

/// A word with what is said of the one at a place, if something is.
fn word_with(
    alloc: Global,
    each: &[bool],
    place: usize,
    word: &AskedWord,
) -> Result<Option<Tree>, AllocError>
    ensures { IfOk result (λ tree. option_map view tree ≡ word_with each.now place word.now) }
{
    match item_at(each, place) {
        Some(acceptable) => Ok(Some(word_tree(alloc, word, *acceptable)?)),
        None => Ok(None),
    }
}

/// The word at a place, with what is said of it.
#[tactic(auto, unfolding(crate::specs::Rulings::word_at))]
fn word_at(
    alloc: Global,
    words: &[AskedWord],
    each: &[bool],
    place: usize,
) -> Result<Option<Tree>, AllocError>
    ensures { IfOk result (λ tree. option_map view tree ≡ word_at words.now each.now place) }
{
    match item_at(words, place) {
        Some(word) => word_with(alloc, each, place, word),
        None => Ok(None),
    }
}

/// The words with the ruling on each.
#[tactic(auto, using(std::proofs::lemmas::Grind::common_steps, repair_json::proofs::Ranges::filter_map_range_more))]
fn words_array(alloc: Global, words: &[AskedWord], each: &[bool]) -> Result<Tree, AllocError>
    ensures { IfOk result (λ tree. view tree ≡ array_of (filter_map (word_at words.now each.now) (range_with_len 0 (length words.now)))) }
{
    let mut trees = Vec::new(alloc);
    for place in 0..words.len() {
        push_if(&mut trees, word_at(alloc, words, each, place)?)?;
    }
    Ok(array(trees))
}

/// Whether all words are in the list.
fn ruling_name(acceptable: bool) -> &'static str
    ensures { result.now ≡ ruling_name acceptable }
{
    if acceptable {
        "acceptable"
    } else {
        "not acceptable"
    }
}

/// The ruling on words: on all together, and on each.
pub fn ruling_tree(alloc: Global, words: &[AskedWord], ruling: &Ruling) -> Result<Tree, AllocError>
    ensures { IfOk result (λ tree. view tree ≡ ruling_object words.now ruling.now) }
{
    let words = words_array(alloc, words, ruling.each.as_slice())?;
    let fields = vec![in alloc;
        ("verdict", name_tree(ruling_name(ruling.acceptable))),
        ("line", null_tree()),
        ("fault", null_tree()),
        ("words", words),
    ]?;
    Ok(object(fields))
}

/// That a text is not a word.
pub fn no_word_tree(alloc: Global) -> Result<Tree, AllocError>
    ensures { IfOk result (λ tree. view tree ≡ no_word_object) }
{
    let fields = vec![in alloc;
        ("verdict", name_tree("bad word")),
        ("line", null_tree()),
        ("fault", null_tree()),
    ]?;
    Ok(object(fields))
}
