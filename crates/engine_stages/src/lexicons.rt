//! The stage that makes a pair of a word list and the bytes of a lexicon file, a compiled GADDAG.
ghost use Rattle.std.specs.Prelude.{◌≡◌, IfOk};
ghost use Rattle.first_faults.specs.Checks.{Refuses};
ghost use Rattle.lex_file.specs.Files.{bytes_of};
ghost use Rattle.engine_stages.specs.Lexicons.{file_fault, IsRefusedFile, IsRefusedPair};
ghost use Rattle.io_devices.specs.Devices.{HasRoom};
ghost use Rattle.lex_file.specs.Formats.{most_file_bytes};
ghost use Rattle.engine_stages.specs.Stages.{IsRead, IsPairOf};

use crate::decisions::Decision;
use crate::faults::RunFault;
use crate::input_faults::InputFault;
use crate::transfers::read_text;
use io_devices::Input;
use lex_check::{Checked, Mismatch, Path, pair};
use lex_file::{FileFault, LexFile, MAX_FILE_BYTES};
use lex_list::WordList;
use std::alloc::{AllocError, Global};

/// What is wrong with a lexicon.
#[derive(Debug, Drop, PartialEq, Eq)]
pub enum LexiconFault {
    /// The file does not have the form of a lexicon.
    Form(FileFault),
    /// This rotated path of a listed word is not in the file.
    Missing(Path),
    /// The file has this string, or a string that begins with it, and the list has no such path.
    Extra(Path),
    /// The file states another number of words.
    WordCount,
}

/// Opens a lexicon file. If it has too many bytes, that is reported before anything else.
#[tactic(auto, unfolding(crate::specs::Lexicons::file_fault))]
pub fn open_within(bytes: &[u8]) -> Result<LexFile<'_>, FileFault>
    ensures form { Refuses result (file_fault bytes.now) }
    ensures bytes { IfOk result (λ file. bytes_of file ≡ bytes.now) }
{
    if bytes.len() > MAX_FILE_BYTES {
        return Err(FileFault::Length);
    }
    LexFile::open(bytes)
}

/// Reads the bytes of a lexicon file to their end, or to one byte past 268,435,468 bytes and no further.
///
/// # Errors
///
/// If the input failed or memory was refused. `ReadFailed` comes only if the count of failures of that input rose, and `NoMemory` only if it did not.
#[tactic(auto, using(crate::proofs::Readings::whole, crate::proofs::Readings::failed))]
pub fn read_lexicon<L: Input>(alloc: Global, lexicon: &mut L) -> Result<Vec<u8>, RunFault>
    requires { HasRoom (L.device lexicon.old) }
    ensures { IsRead most_file_bytes (L.device lexicon.old) (L.device lexicon.new) (λ text bytes. bytes.items ≡ text) result }
{
    match read_text(alloc, lexicon, MAX_FILE_BYTES) {
        Ok(bytes) => Ok(bytes),
        Err(fault) => Err(fault),
    }
}

/// The verdict that names a fault.
pub fn bad_file(alloc: Global, fault: LexiconFault) -> Result<Decision, AllocError>
    ensures { IfOk result (λ d. IsRefusedFile fault d) }
{
    Decision::refused(alloc, InputFault::Lexicon(fault))
}

/// The verdict that names a fault, in place of a list and a lexicon.
fn refused<'a>(
    alloc: Global,
    fault: LexiconFault,
) -> Result<Result<Checked<'a>, Decision>, AllocError>
    ensures { IfOk result (λ read. IsRefusedPair fault read) }
{
    let decision = bad_file(alloc, fault)?;
    Ok(Err(decision))
}

/// A word list and the lexicon of these bytes, or the verdict that they are not the lexicon of the list. There is a pair exactly if the bytes are the
/// lexicon of the list; else the verdict has the line of what is wrong first.
#[tactic(auto, using(crate::proofs::Pairings::bad_form, crate::proofs::Pairings::is_missing, crate::proofs::Pairings::is_extra, crate::proofs::Pairings::is_miscounted, crate::proofs::Pairings::is_agreed))]
pub fn pair_file<'a>(
    alloc: Global,
    list: &'a WordList,
    bytes: &'a [u8],
) -> Result<Result<Checked<'a>, Decision>, AllocError>
    ensures { IfOk result (λ read. IsPairOf list.now bytes.now read) }
{
    let file = match open_within(bytes) {
        Ok(file) => file,
        Err(first) => return refused(alloc, LexiconFault::Form(first)),
    };
    match pair(alloc, list, file) {
        Ok(checked) => Ok(Ok(checked)),
        Err(Mismatch::Missing(path)) => refused(alloc, LexiconFault::Missing(path)),
        Err(Mismatch::Extra(path)) => refused(alloc, LexiconFault::Extra(path)),
        Err(Mismatch::WordCount) => refused(alloc, LexiconFault::WordCount),
        Err(Mismatch::NoMemory) => Err(AllocError),
    }
}
