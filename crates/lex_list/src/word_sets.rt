//! The set of the words read so far.
ghost use Rattle.std.specs.Prelude.{◌≡◌, ◌++◌, ◌∷◌, [], IfOk, OnOk, length};
ghost use Rattle.std.specs.Bool.{OnTrue};
ghost use Rattle.std.specs.BTreeSet.{insert_key};
ghost use Rattle.std.specs.List.Sorted.{IsStrictlySortedBy};
ghost use Rattle.lex_list.specs.Words.{word_order};

use crate::words::Word;
use std::alloc::{AllocError, Global};
use std::collections::BTreeSet;
use std::marker::Model;

/// A set of words that grows. Contracts see the list of the words, in byte order.
///
/// As long as each word comes after all others, the words are in a row, and none is searched for. From the first one that does not,
/// they are in a balanced tree.
#[derive(Drop)]
pub(crate) struct WordSet {
    row: Vec<Word>,
    tree: BTreeSet<Word>,
}

impl Model for WordSet {
    ghost use Rattle.std.specs.Prelude.{List, ℕ};
    ghost use Rattle.std.specs.List.Sorted.{IsStrictlySortedBy};
    ghost use Rattle.lex_list.specs.Words.{word_order};
    ghost use Rattle.lex_list.specs.WordSets.{words_of};

    ghost Value = { List (List ℕ) };

    ghost view = { λ s. words_of s.row.items s.tree.keys };

    ghost invariant = { λ s. IsStrictlySortedBy word_order s.row.items };
}

impl WordSet {
    /// No words.
    pub(crate) fn new(alloc: Global) -> WordSet
        ensures { result ≡ [] }
    {
        WordSet {
            row: Vec::new(alloc),
            tree: BTreeSet::new(alloc),
        }
    }

    /// The number of the words.
    pub(crate) fn len(&self) -> usize
        ensures { result ≡ length self.now }
    {
        if self.tree.is_empty() {
            return self.row.len();
        }
        self.tree.len()
    }

    /// Adds a word. One that is already there stays once.
    pub(crate) fn insert(&mut self, word: Word) -> Result<(), AllocError>
        ensures { OnOk result (self.new ≡ insert_key word_order self.old word) }
    {
        if self.tree.is_empty() {
            if is_after(&self.row, &word) {
                self.row.push(word)?;
                return Ok(());
            }
            move_words(&mut self.row, &mut self.tree)?;
        }
        self.tree.insert(word)?;
        Ok(())
    }

    /// The words in order.
    pub(crate) fn into_vec(self, alloc: Global) -> Result<Vec<Word>, AllocError>
        ensures { IfOk result (λ words. words.items ≡ self) }
    {
        let WordSet { row, tree } = self;
        if tree.is_empty() {
            return Ok(row);
        }
        tree.into_iter().collect(alloc)
    }
}

/// Whether a word comes after all words of a row in order.
fn is_after(row: &[Word], word: &Word) -> bool
    requires { IsStrictlySortedBy word_order row.now }
    ensures { OnTrue result (insert_key word_order row.now word.now ≡ row.now ++ word.now ∷ []) }
{
    match row.last() {
        Some(last) => last < word,
        None => true,
    }
}

/// Moves the words of a row in order into a tree that has none.
fn move_words(row: &mut Vec<Word>, tree: &mut BTreeSet<Word>) -> Result<(), AllocError>
    requires rising { IsStrictlySortedBy word_order row.old.items }
    requires none { tree.old.keys ≡ [] }
    ensures rising { IsStrictlySortedBy word_order row.new.items }
    ensures moved { OnOk result (tree.new.keys ≡ row.old.items) }
{
    while let Some(word) = row.pop() {
        tree.insert(word)?;
    }
    Ok(())
}
