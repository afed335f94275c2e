//! The answer, from the count, the paths of first letters and the turns of letters.
ghost use Rattle.std.specs.Prelude.{◌≡◌};
ghost use Rattle.std.specs.Bool.{OnTrue};
ghost use Rattle.lex_list.specs.RotatedPaths.{StandsFor};
ghost use Rattle.lex_file.specs.Files.{bytes_of};
ghost use Rattle.lex_file.specs.Languages.{language_of};

use crate::counting::count_strings;
use crate::firsts::has_firsts;
use crate::letters::letter_count;
use crate::turning::all_turn_over;
use lex_file::{LexFile, PathLex};
use lex_list::WordList;
use std::alloc::Global;

/// The maximum number of words of a file that its nodes take for each string: a string has at most 16 labels, and a node with one
/// label takes three words in the larger format.
const MOST_WORDS: usize = 48;

/// Whether a compiled lexicon has exactly the rotated paths of a word list, if its nodes and its count of strings decide that. If
/// they do not, or memory runs out, the answer is no.
///
/// The count comes first: it takes one pass over the nodes, and most wrong files have a different one.
///
/// A no says nothing. That it answers yes for what is built is only tested.
pub fn agree(alloc: Global, list: &WordList, file: &LexFile<'_>) -> bool
    ensures { OnTrue result (StandsFor (language_of (bytes_of file.now)) list.now) }
{
    let letters = letter_count(list);
    if file.place(file.root()) as usize > MOST_WORDS * letters {
        return false;
    }
    let Ok(strings) = count_strings(alloc, file) else {
        return false;
    };
    if strings as usize != letters {
        return false;
    }
    if !has_firsts(list, file) {
        return false;
    }
    all_turn_over(file, letters)
}
