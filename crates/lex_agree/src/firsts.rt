//! The paths in a file of words whose front is the first letter.
ghost use Rattle.std.specs.{Prelude.{◌≡◌, ◌+◌, ◌<◌, ◌≤◌, [], ℕ, IsTrue, length, slice_index_or, slice_index, take, true}, Bool.{OnTrue}, Char.{is_ascii_uppercase}};
ghost use Rattle.lex_list.specs.Words.{is_word};
ghost use Rattle.lex_file.specs.{Files.{bytes_of}, Languages.{language_of}, Walking.{IsOpen}};
ghost use Rattle.lex_agree.specs.{Chains.{first_path}, Walks.{IsNodeOf, IsPast, AreSteps, AreAlike}};

use crate::steps::{follow, label_of, start};
use lex_file::{LexFile, MARK, Node, Step};
use lex_list::WordList;

/// The maximum number of letters of a word, plus one.
const PLACES: usize = 16;

/// Whether a file has the path of each word of a list whose front is its first letter. What follows the letters that a word has in
/// common with the word before it is kept.
pub fn has_firsts(list: &WordList, file: &LexFile<'_>) -> bool
    ensures { OnTrue result ((place : ℕ) → place < length list.now → language_of (bytes_of file.now) (first_path (slice_index_or list.now place [])) ≡ true) }
{
    let mut steps = [start(file); PLACES];
    let mut before: &[u8] = &[];
    for place in 0..list.len() {
        let word = list.word(place);
        let same = common_letters(before, word);
        take_steps(file, word, same, &mut steps);
        if !steps[word.len()].accepts {
            return false;
        }
        before = word;
    }
    true
}

/// The number of letters that two words have in common at the front, or of labels that two fronts have.
pub fn common_letters(one: &[u8], other: &[u8]) -> usize
    ensures { AreAlike one.now other.now result }
{
    let mut same = 0;
    while same < one.len() && same < other.len() && one[same] == other[same] {
        same += 1;
    }
    same
}

/// Adds the steps to the other letters of a word, after those to the first letters, which are known.
fn take_steps(file: &LexFile<'_>, word: &[u8], same: usize, steps: &mut [Step<Node>; PLACES])
    requires word { IsTrue (is_word word.now) }
    requires same { same ≤ length word.now }
    requires steps { AreSteps (bytes_of file.now) word.now same steps.old }
    ensures { AreSteps (bytes_of file.now) word.now (length word.now) steps.new }
{
    for split in same..word.len() {
        let step = follow(file, steps[split], label_of(word[split]));
        steps[split + 1] = past_mark(file, split == 0, step);
    }
}

/// The step past the mark after the first letter; after other letters there is no mark.
fn past_mark(file: &LexFile<'_>, first: bool, step: Step<Node>) -> Step<Node>
    requires { IsOpen (IsNodeOf (bytes_of file.now)) step.next }
    ensures { IsPast (bytes_of file.now) first step result }
{
    if first {
        return follow(file, step, MARK);
    }
    step
}
