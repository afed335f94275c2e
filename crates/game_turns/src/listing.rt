//! The number of listed words of a play.
ghost use Rattle.std.specs.Prelude.{◌≡◌, ◌≤◌, length};
ghost use Rattle.std.specs.List.{list_all, list_any};
ghost use Rattle.lex_list.specs.Words.{is_listed};
ghost use Rattle.ref_play.specs.Words.{items_of};
ghost use Rattle.game_turns.specs.Checks.{listed_in};

use lex_list::WordList;
use ref_play::Word;

/// Whether each of the words is listed.
pub fn all_listed(list: &WordList, words: &[Word]) -> bool
    ensures { result ≡ list_all (is_listed list.now) (items_of words.now) }
{
    for word in words {
        if !list.has(word.as_slice()) {
            return false;
        }
    }
    true
}

/// Whether one of the words is listed.
pub fn any_listed(list: &WordList, words: &[Word]) -> bool
    ensures { result ≡ list_any (is_listed list.now) (items_of words.now) }
{
    for word in words {
        if list.has(word.as_slice()) {
            return true;
        }
    }
    false
}

/// The number of the words that are listed.
pub fn listed_in(list: &WordList, words: &[Word]) -> usize
    ensures number { result ≡ listed_in list.now (items_of words.now) }
    ensures bound { result ≤ length words.now }
{
    words
        .iter()
        .filter(|word| list.has(word.as_slice()))
        .count()
}
