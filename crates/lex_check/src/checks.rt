//! Whether a compiled lexicon is that of a word list, and the first difference.
ghost use Rattle.std.specs.Prelude.{◌≡◌, MatchResult, map};
ghost use Rattle.lex_list.specs.RotatedPaths.{StandsFor};
ghost use Rattle.lex_file.specs.Files.{bytes_of};
ghost use Rattle.lex_file.specs.Languages.{language_of};
ghost use Rattle.lex_check.specs.Checks.{IsAgreed, IsMismatch, symbol_of};

use crate::differences::{Difference, Path};
use crate::sorted::SortedPaths;
use crate::walks::check_paths;
use arrayvec::ArrayVec;
use lex_agree::agree;
use lex_file::LexFile;
use lex_list::WordList;
use std::alloc::Global;

/// Why a compiled lexicon is not that of a word list.
#[derive(Debug, Drop, PartialEq, Eq)]
pub enum Mismatch {
    /// This rotated path of a listed word is not in the lexicon.
    Missing(Path),
    /// The lexicon has this string, or one that begins with it, and the list has no such path.
    Extra(Path),
    /// The paths are the same, but the lexicon states another number of words.
    WordCount,
    /// Memory ran out.
    NoMemory,
}

/// Compares a compiled lexicon with the rotated paths of a word list, and names the first difference in the order of
/// strings of labels. The number of words is compared after that.
///
/// In most cases [`agree`] decides that they agree; it is not called if the file states another number of words. If it does not
/// decide it, the paths are put in order and walked along with the file.
pub fn check(alloc: Global, list: &WordList, file: &LexFile<'_>) -> Result<(), Mismatch>
    ensures { MatchResult result (λ _. IsAgreed list.now (bytes_of file.now)) (λ why. IsMismatch list.now (bytes_of file.now) why) }
{
    if file.word_count() as usize == list.len() && agree(alloc, list, file) {
        return check_count(list, file);
    }
    walk_beside(alloc, list, file)?;
    check_count(list, file)
}

/// Compares the number of words that a compiled lexicon states with that of the list whose paths it has.
fn check_count(list: &WordList, file: &LexFile<'_>) -> Result<(), Mismatch>
    requires { StandsFor (language_of (bytes_of file.now)) list.now }
    ensures { MatchResult result (λ _. IsAgreed list.now (bytes_of file.now)) (λ why. IsMismatch list.now (bytes_of file.now) why) }
{
    if file.word_count() as usize != list.len() {
        return Err(Mismatch::WordCount);
    }
    Ok(())
}

/// Walks a compiled lexicon along with the rotated paths of a word list in order, and names the first difference.
#[tactic(auto, using(crate::proofs::Agreements::first_of_words, crate::proofs::Agreements::same_as_words))]
fn walk_beside(alloc: Global, list: &WordList, file: &LexFile<'_>) -> Result<(), Mismatch>
    ensures { MatchResult result (λ _. StandsFor (language_of (bytes_of file.now)) list.now) (λ why. IsMismatch list.now (bytes_of file.now) why) }
{
    let paths = match SortedPaths::new(alloc, list) {
        Ok(paths) => paths,
        Err(_) => return Err(Mismatch::NoMemory),
    };
    match check_paths(file, &paths) {
        Ok(()) => Ok(()),
        Err(Difference::Missing(path)) => Err(Mismatch::Missing(path)),
        Err(Difference::Extra(path)) => Err(Mismatch::Extra(path)),
    }
}

/// How reports print a label: + for the mark, and the letters A to Z.
fn symbol_of(label: u8) -> u8
    ensures { result ≡ symbol_of label }
{
    match label {
        0 => b'+',
        1..=26 => label + 64,
        _ => b'?',
    }
}

/// How reports print a path.
pub fn text_of(path: &Path) -> ArrayVec<u8, 17>
    ensures { result.items ≡ map symbol_of path.now.items }
{
    let mut text = ArrayVec::new();
    for label in path.as_slice() {
        text.push(symbol_of(*label));
    }
    text
}
