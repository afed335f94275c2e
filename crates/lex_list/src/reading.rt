//! A word list from the lines of a text.
ghost use Rattle.std.specs.Prelude.{◌≡◌, ◌≤◌, IfOk, IfErr, length};
ghost use Rattle.std.specs.Char.{is_ascii_alphabetic};
ghost use Rattle.std.specs.List.{list_all};
ghost use Rattle.lex_list.specs.Faults.{Gives};
ghost use Rattle.lex_list.specs.Lines.{lines_in, lines_of};
ghost use Rattle.lex_list.specs.Lists.{most_list_bytes, list_in, list_of, line_in, HoldsWordsOf, IsFaultOf, Reads, Makes, IsWordIn};
ghost use Rattle.lex_list.specs.Words.{has_word_length};

use crate::faults::{ListFault, ListWhy};
use crate::lists::WordList;
use crate::word_sets::WordSet;
use crate::words::{MAX_LETTERS, Word};
use std::alloc::Global;
use text_lines::{Lines, without_mark};

/// The maximum number of bytes of a word list: 16 MiB.
pub const MAX_BYTES: usize = 16_777_216;

/// The maximum number of words of a word list.
pub const MAX_WORDS: usize = 400_000;

/// The minimum number of letters of a word.
const MIN_LETTERS: usize = 2;

impl WordList {
    /// Reads a word list, and gives the set of the words of its lines, or its first fault: the first by line,
    /// and on a line the first in the order of [`ListWhy`].
    ///
    /// `TooMany` is on the line of the 400,001st distinct word; a repeated word does not count. `TooLong` comes before all else.
    #[tactic(auto, using(crate::proofs::Meanings::list_proper, crate::proofs::Meanings::list_holds, crate::proofs::Meanings::text_fault), unfolding(crate::specs::Lists::list_of))]
    pub fn read(alloc: Global, bytes: &[u8]) -> Result<WordList, ListFault>
        ensures meaning { Gives result (list_of bytes.now) }
        ensures words { IfOk result (λ list. HoldsWordsOf list (lines_of bytes.now)) }
        ensures fault { IfErr result (λ fault. IsFaultOf bytes.now fault) }
    {
        if bytes.len() > MAX_BYTES {
            return Err(ListFault {
                line: 0,
                why: ListWhy::TooLong,
            });
        }
        let words = read_lines(alloc, without_mark(bytes))?;
        let list = WordList::of_set(alloc, words)?;
        Ok(list)
    }
}

/// Reads the lines of a text.
#[tactic(auto, using(crate::proofs::Steps::steps))]
fn read_lines(alloc: Global, text: &[u8]) -> Result<WordSet, ListFault>
    requires { length text.now ≤ most_list_bytes }
    ensures { Reads result (list_in (lines_in text.now)) }
{
    let mut words = WordSet::new(alloc);
    let mut number = 0;
    for line in Lines::of(text) {
        number += 1;
        take_line(&mut words, number, line)?;
    }
    Ok(words)
}

/// Reads one line, and adds its word to those of the lines before it.
#[tactic(auto, using(crate::proofs::Steps::line_empty, crate::proofs::Steps::line_bad, crate::proofs::Steps::line_many, crate::proofs::Steps::line_good))]
fn take_line(words: &mut WordSet, line: u32, text: &[u8]) -> Result<(), ListFault>
    ensures { Makes words.new result (line_in words.old line text.now) }
{
    if text.is_empty() {
        return Ok(());
    }
    let word = match read_word(text) {
        Ok(word) => word,
        Err(why) => return Err(ListFault { line, why }),
    };
    let Ok(()) = words.insert(word) else {
        return Err(ListFault::no_memory());
    };
    if words.len() > MAX_WORDS {
        return Err(ListFault {
            line,
            why: ListWhy::TooMany,
        });
    }
    Ok(())
}

/// The word of a line that is not empty.
#[tactic(auto, unfolding(crate::specs::Lists::spelling_fault))]
fn read_word(line: &[u8]) -> Result<Word, ListWhy>
    ensures { IsWordIn result line.now }
{
    if !has_letters_alone(line) {
        return Err(ListWhy::BadLetter);
    }
    if !has_word_length(line) {
        return Err(ListWhy::BadLength);
    }
    Ok(Word::of_line(line))
}

fn has_letters_alone(line: &[u8]) -> bool
    ensures { result ≡ list_all is_ascii_alphabetic line.now }
{
    line.iter().all(u8::is_ascii_alphabetic)
}

fn has_word_length(line: &[u8]) -> bool
    ensures { result ≡ has_word_length line.now }
{
    MIN_LETTERS <= line.len() && line.len() <= MAX_LETTERS
}
