//! A word list: a set of words, in byte order.
ghost use Rattle.std.specs.Prelude.{◌≡◌, ◌<◌, ◌↔◌, [], IsTrue, IfOk, length, slice_index_or};
ghost use Rattle.std.specs.List.{Contains};

use crate::word_sets::WordSet;
use crate::words::Word;
use std::alloc::{AllocError, Global};
use std::marker::Model;

/// A set of words, in byte order. Contracts see the list of the words, in capitals.
#[derive(Debug, Drop)]
pub struct WordList {
    words: Vec<Word>,
}

impl Model for WordList {
    ghost use Rattle.std.specs.Prelude.{List, ℕ};
    ghost use Rattle.lex_list.specs.Words.{IsWordList};

    ghost Value = { List (List ℕ) };

    ghost view = { λ a. a.words.items };

    ghost invariant = { λ a. IsWordList a.words.items };
}

impl WordList {
    ghost use Rattle.lex_list.specs.Words.{IsWordList, is_listed, is_word};

    /// The list of a set of words.
    pub(crate) fn of_set(alloc: Global, words: WordSet) -> Result<WordList, AllocError>
        requires { IsWordList words }
        ensures { IfOk result (λ list. list ≡ words) }
    {
        Ok(WordList {
            words: words.into_vec(alloc)?,
        })
    }

    /// Whether these bytes are a word of the list, in capitals.
    #[tactic(auto, using(crate::proofs::Orders::is_member))]
    pub fn has(&self, word: &[u8]) -> bool
        ensures test { result ≡ is_listed self.now word.now }
        ensures member { IsTrue result ↔ Contains self.now word.now }
    {
        self.is_listed(word)
    }

    #[tactic(auto, using(crate::proofs::Orders::searched, crate::proofs::Orders::too_long))]
    fn is_listed(&self, word: &[u8]) -> bool
        ensures { result ≡ is_listed self.now word.now }
    {
        match Word::of_bytes(word) {
            Some(word) => self.words.binary_search(&word).is_ok(),
            None => false,
        }
    }

    /// The number of words, at most 400,000.
    pub fn len(&self) -> usize
        ensures number { result ≡ length self.now }
        ensures proper { IsWordList self.now }
    {
        self.words.len()
    }

    /// The word at a place, from 0, in byte order: 2 to 15 capitals.
    pub fn word(&self, place: usize) -> &[u8]
        requires { place < length self.now }
        ensures word { result.now ≡ slice_index_or self.now place [] }
        ensures letters { IsTrue (is_word result.now) }
    {
        self.words[place].as_slice()
    }
}
