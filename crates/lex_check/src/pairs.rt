//! A word list and a lexicon that agree.
ghost use Rattle.lex_file.specs.Files.{bytes_of};
ghost use Rattle.lex_check.specs.Checks.{IsAgreed};

use lex_file::LexFile;
use lex_list::WordList;

/// A word list and a compiled lexicon that agree: the lexicon has exactly the rotated paths of the listed words, and
/// states their number.
#[derive(Clone, Copy, Debug)]
pub struct Checked<'a> {
    list: &'a WordList,
    file: LexFile<'a>,
    pub ghost agreed: { IsAgreed list.now (bytes_of file) },
}

impl<'a> Checked<'a> {
    ghost use Rattle.std.specs.Prelude.{◌≡◌};
    ghost use Rattle.lex_check.specs.Pairs.{file_in, list_in};

    /// A list and a lexicon that agree.
    pub(crate) fn new(list: &'a WordList, file: LexFile<'a>) -> Checked<'a>
        requires { IsAgreed list.now (bytes_of file) }
        ensures file { file_in result ≡ file.entry }
        ensures list { list_in result ≡ list.now }
    {
        Checked { list, file }
    }

    /// The compiled lexicon.
    pub fn file(&self) -> &LexFile<'a>
        ensures file { result.now ≡ file_in self.now }
        ensures agreed { IsAgreed (list_in self.now) (bytes_of result.now) }
    {
        &self.file
    }

    /// The word list.
    pub fn list(&self) -> &'a WordList
        ensures list { result.now ≡ list_in self.now }
        ensures agreed { IsAgreed result.now (bytes_of (file_in self.now)) }
    {
        self.list
    }
}
