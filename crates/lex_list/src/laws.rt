//! Laws of the definitions that the contracts of word lists and lexicons cite. The functions do nothing: their contracts are the laws.
ghost use Rattle.lex_list.specs.Laws.{MeaningsAreLists, ListsHaveCapitals, PathsAreTested, StandingIsExact, SplitsAreStrings};

/// A text that has a meaning means a word list: only capitals, 2 to 15 in each word, the words strictly rising in byte order, at
/// most 400,000. Its words are exactly those on the lines of the text.
pub fn law_of_lists()
    ensures meaning { MeaningsAreLists }
    ensures capitals { ListsHaveCapitals }
{}

/// If words have only capitals, a string is a rotated path of one of them exactly when it passes the test that cuts it at its first
/// mark and reads the word back. So a lexicon that stands for the rotated paths of the words has exactly these strings.
pub fn law_of_paths()
    ensures tested { PathsAreTested }
    ensures standing { StandingIsExact }
{}

/// A lexicon that stands for the rotated paths of words has each word once for each of its splits: some labels, and then the rest
/// of the word after a mark, are one of its strings exactly when the first labels, read backwards, and then the rest make a listed
/// word. If there is no rest, and no mark, the labels are the whole word backwards.
pub fn law_of_splits()
    ensures { SplitsAreStrings }
{}
