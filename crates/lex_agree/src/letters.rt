//! The letters of a word list, counted.
ghost use Rattle.std.specs.Prelude.{◌≡◌, ◌≤◌};
ghost use Rattle.lex_list.specs.Words.{IsWordList};
ghost use Rattle.lex_agree.specs.Counts.{letters_of};

use lex_list::WordList;

/// The number of letters of all words of a list.
pub fn letter_count(list: &WordList) -> usize
    ensures number { result ≡ letters_of list.now }
    ensures few { result ≤ 6000000 }
    ensures proper { IsWordList list.now }
{
    let mut count = 0;
    for place in 0..list.len() {
        count += list.word(place).len();
    }
    count
}
