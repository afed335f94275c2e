//! What stays wrong, as trees.
ghost use Rattle.std.specs.Prelude.{◌≡◌, IfOk, map, option_map};
ghost use Rattle.json_trees.specs.Trees.{view};
ghost use Rattle.json_trees.specs.Values.{array_of};
ghost use Rattle.repair_json.specs.Evidence.{evidence_object, word_value, wrong_object, wrong_on, wrong_value};

use game_corrections::{WrongNumber, due};
use game_turns::SpelledWord;
use json_trees::{
    Tree, array, count_tree, integer_tree, name_tree, object, push_if, text_tree, wide_tree,
};
use repair_single::Remains;
use std::alloc::{AllocError, Global};

/// A number that is wrong on a line.
fn wrong_on(
    alloc: Global,
    what: &'static str,
    line: u32,
    written: i32,
    right: i32,
) -> Result<Tree, AllocError>
    ensures { IfOk result (λ tree. view tree ≡ wrong_on what.now line written right) }
{
    let fields = vec![in alloc;
        ("wrong", name_tree(what)),
        ("line", count_tree(line)),
        ("written", integer_tree(written)),
        ("right", integer_tree(right)),
    ]?;
    Ok(object(fields))
}

/// A number that is wrong; `None` for a last total, which the lines give too.
fn wrong_tree(alloc: Global, number: &WrongNumber) -> Result<Option<Tree>, AllocError>
    ensures { IfOk result (λ tree. option_map view tree ≡ wrong_object number.now) }
{
    match number {
        WrongNumber::Score {
            line,
            written,
            right,
        } => Ok(Some(wrong_on(alloc, "score", *line, *written, *right)?)),
        WrongNumber::Sum {
            line,
            written,
            sum,
            right,
        } => {
            let right = due(*sum, *right);
            Ok(Some(wrong_on(alloc, "sum", *line, *written, right)?))
        }
        WrongNumber::Total { .. } => Ok(None),
    }
}

/// The numbers that are wrong.
#[tactic(auto, using(std::proofs::lemmas::Grind::common_steps, json_trees::proofs::Lists::kept))]
fn wrong_array(alloc: Global, wrong: &[WrongNumber]) -> Result<Tree, AllocError>
    ensures { IfOk result (λ tree. view tree ≡ wrong_value wrong.now) }
{
    let mut trees = Vec::new(alloc);
    for number in wrong {
        push_if(&mut trees, wrong_tree(alloc, number)?)?;
    }
    Ok(array(trees))
}

/// The words.
fn words_array(alloc: Global, words: &[SpelledWord]) -> Result<Tree, AllocError>
    ensures { IfOk result (λ tree. view tree ≡ array_of (map word_value words.now)) }
{
    let mut trees = Vec::new(alloc);
    for word in words {
        trees.push(text_tree(alloc, word.letters.as_slice())?)?;
    }
    Ok(array(trees))
}

/// What stays wrong, out of the given number of numbers.
pub(crate) fn evidence_tree(
    alloc: Global,
    remains: &Remains,
    numbers: u128,
) -> Result<Tree, AllocError>
    ensures { IfOk result (λ tree. view tree ≡ evidence_object remains.now numbers) }
{
    let right = numbers.saturating_sub(remains.wrong.len() as u128);
    let wrong = wrong_array(alloc, remains.wrong.as_slice())?;
    let unlisted = words_array(alloc, remains.unlisted.as_slice())?;
    let fields = vec![in alloc;
        ("numbers", wide_tree(numbers)),
        ("numbers_right", wide_tree(right)),
        ("wrong", wrong),
        ("unlisted", unlisted),
    ]?;
    Ok(object(fields))
}
