//! The ruling on words.
ghost use Rattle.std.specs.Prelude.{◌≡◌, map, IfOk};
ghost use Rattle.std.specs.List.{list_all};
ghost use Rattle.lex_rulings.specs.Rulings.{is_acceptable, IsRuling};

use crate::asked::AskedWord;
use lex_list::WordList;
use std::alloc::{AllocError, Global};

/// What a list says of words.
#[derive(Drop)]
pub struct Ruling {
    /// Whether each word, in their order, is in the list.
    pub each: Vec<bool>,
    /// Whether all of them are.
    pub acceptable: bool,
}

/// Whether a word is in a list.
fn is_acceptable(list: &WordList, word: &AskedWord) -> bool
    ensures { result ≡ is_acceptable list.now word.now }
{
    list.has(&word.letters)
}

/// Whether each word is in a list.
fn each_word(alloc: Global, list: &WordList, words: &[AskedWord]) -> Result<Vec<bool>, AllocError>
    ensures { IfOk result (λ each. each.items ≡ map (is_acceptable list.now) words.now) }
{
    let mut each = Vec::new(alloc);
    for word in words {
        each.push(is_acceptable(list, word))?;
    }
    Ok(each)
}

/// Whether all words are in a list.
fn all_words(list: &WordList, words: &[AskedWord]) -> bool
    ensures { result ≡ list_all (is_acceptable list.now) words.now }
{
    for word in words {
        if !is_acceptable(list, word) {
            return false;
        }
    }
    true
}

/// The ruling on words: for each whether it is in the list, and for all together whether each is.
pub fn ruling_on(alloc: Global, list: &WordList, words: &[AskedWord]) -> Result<Ruling, AllocError>
    ensures { IfOk result (IsRuling list.now words.now) }
{
    let each = each_word(alloc, list, words)?;
    Ok(Ruling {
        each,
        acceptable: all_words(list, words),
    })
}
