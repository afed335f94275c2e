//! The ruling on words, in words and as a tree.
ghost use Rattle.std.specs.Prelude.{◌≡◌, IfOk, None};
ghost use Rattle.json_trees.specs.Trees.{view};
ghost use Rattle.reply_texts.specs.Objects.{ruled_of};
ghost use Rattle.reply_texts.specs.Rulings.{ruling_line, bad_word_line, ruled_line};

use json_trees::Tree;
use lex_rulings::AskedWord;
use reply_answers::Ruled;
use reply_calls::Printed;
use sheet_json::{no_word_tree, ruling_tree};
use std::alloc::{AllocError, Global};

/// The line that says that words are acceptable, or that they are not.
#[tactic(auto, unfolding(crate::specs::Rulings::ruling_line))]
fn ruling_line(acceptable: bool) -> &'static [u8]
    ensures { result.now ≡ ruling_line acceptable }
{
    if acceptable {
        b"acceptable\n"
    } else {
        b"not acceptable\n"
    }
}

/// The line that says that a text is not a word.
#[tactic(auto, unfolding(crate::specs::Rulings::bad_word_line))]
fn bad_word_line() -> &'static [u8]
    ensures { result.now ≡ bad_word_line }
{
    b"bad word\n"
}

/// The ruling on words in words: one line for all together, or that one of them is not a word.
pub fn ruled_words(alloc: Global, ruled: &Option<Ruled>) -> Result<Printed, AllocError>
    ensures report { IfOk result (λ printed. printed.report.items ≡ ruled_line ruled.now) }
    ensures kept { IfOk result (λ printed. printed.kept ≡ None) }
{
    match ruled {
        Some(ruled) => Printed::of_bytes(alloc, ruling_line(ruled.ruling.acceptable)),
        None => Printed::of_bytes(alloc, bad_word_line()),
    }
}

/// Appends the line of a word.
fn push_word(lines: &mut Vec<u8>, word: &AskedWord, acceptable: bool) -> Result<(), AllocError> {
    lines.extend_from_slice(word.letters.as_slice())?;
    lines.push(b' ')?;
    lines.extend_from_slice(ruling_line(acceptable))?;
    Ok(())
}

/// The ruling on words in words: a line for each, or that one of them is not a word.
pub fn each_in_words(alloc: Global, ruled: &Option<Ruled>) -> Result<Printed, AllocError> {
    let Some(ruled) = ruled else {
        return Printed::of_bytes(alloc, bad_word_line());
    };
    let mut lines = Vec::new(alloc);
    for (word, acceptable) in ruled.words.iter().zip(ruled.ruling.each.as_slice()) {
        push_word(&mut lines, word, *acceptable)?;
    }
    Ok(Printed::report(lines))
}

/// The ruling on words as a tree: on all together, and on each; or that one of them is not a word.
pub fn ruled_of(alloc: Global, ruled: &Option<Ruled>) -> Result<Tree, AllocError>
    ensures { IfOk result (λ tree. view tree ≡ ruled_of ruled.now) }
{
    match ruled {
        Some(ruled) => ruling_tree(alloc, ruled.words.as_slice(), &ruled.ruling),
        None => no_word_tree(alloc),
    }
}
