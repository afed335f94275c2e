//! A word list and a lexicon become a pair if they agree.
ghost use Rattle.std.specs.Prelude.{◌≡◌, IfOk, IfErr, OnOk};
ghost use Rattle.lex_file.specs.Files.{bytes_of};
ghost use Rattle.lex_check.specs.Checks.{IsAgreed, IsMismatch};
ghost use Rattle.lex_check.specs.Pairs.{file_in, list_in};

use crate::checks::{Mismatch, check};
use crate::pairs::Checked;
use lex_file::LexFile;
use lex_list::WordList;
use std::alloc::Global;

/// Compares a compiled lexicon with the rotated paths of a word list as [`check`] does, and keeps both if they
/// agree.
pub fn pair<'a>(
    alloc: Global,
    list: &'a WordList,
    file: LexFile<'a>,
) -> Result<Checked<'a>, Mismatch>
    ensures agreed { OnOk result (IsAgreed list.now (bytes_of file.entry)) }
    ensures file { IfOk result (λ pair. file_in pair ≡ file.entry) }
    ensures list { IfOk result (λ pair. list_in pair ≡ list.now) }
    ensures mismatch { IfErr result (λ why. IsMismatch list.now (bytes_of file.entry) why) }
{
    match check(alloc, list, &file) {
        Ok(()) => Ok(Checked::new(list, file)),
        Err(why) => Err(why),
    }
}
