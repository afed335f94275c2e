//! The law of compiled lexicons. The function does nothing: its contract is the law.
ghost use Rattle.lex_check.specs.laws.{LexiconsAreExact};

use lex_file::law_of_language;
use lex_list::{law_of_lists, law_of_paths};

/// If a file is the lexicon of the words of a text, its arcs spell a string from the root exactly when the string is a rotated path
/// of one of the words: for some split of the word into a front that is not empty and a back, the labels of the front in reverse,
/// and if the back is not empty, the mark and the labels of the back.
pub fn law_of_lexicons()
    ensures { LexiconsAreExact }
{
    law_of_language();
    law_of_lists();
    law_of_paths();
}
