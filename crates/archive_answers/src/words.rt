//! What the index of the pages says of a game that its line does not say.
ghost use Rattle.std.specs.Prelude.{◌≡◌, IfOk, option_map};
ghost use Rattle.std.specs.String.{string_bytes};
ghost use Rattle.gcg_about.specs.Encodings.{encoding_of};
ghost use Rattle.archive_lines.specs.Players.{nick_of};
ghost use Rattle.archive_answers.specs.Words.{first_name, second_name, title_of, seems_in, AreWordsOf, no_words, AreWordsAsked};

use game_case::{Case, Entry, Finding};
use gcg_about::{Encoding, words_of};
use gcg_read::{Player, ReadFault};
use io_kinds::FileKind;
use std::alloc::{AllocError, Global};

/// What the index says of a game in addition to its line.
#[derive(Drop)]
pub struct RowWords {
    /// The title of the record.
    pub title: Option<String>,
    /// The full name of the player who began.
    pub first: Option<String>,
    /// That of the other one.
    pub second: Option<String>,
    /// What the file of a record without an event seems to be.
    pub seems: Option<FileKind>,
}

/// The full name of a player, if there is one.
fn full_of(alloc: Global, player: &Player, encoding: Encoding) -> Result<Option<String>, AllocError>
    ensures { IfOk result (λ name. option_map string_bytes name ≡ nick_of encoding player.now.full) }
{
    match player.full.as_bytes() {
        [] => Ok(None),
        full => Ok(Some(encoding.text_of(alloc, full)?)),
    }
}

/// The full name of the player who began, if there is one.
fn first_of(
    alloc: Global,
    read: &Result<Entry, ReadFault>,
    encoding: Encoding,
) -> Result<Option<String>, AllocError>
    ensures { IfOk result (λ name. option_map string_bytes name ≡ first_name encoding read.now) }
{
    match read {
        Ok(entry) => full_of(alloc, &entry.record.players.first, encoding),
        Err(_) => Ok(None),
    }
}

/// The full name of the other player, if there is one.
fn second_of(
    alloc: Global,
    read: &Result<Entry, ReadFault>,
    encoding: Encoding,
) -> Result<Option<String>, AllocError>
    ensures { IfOk result (λ name. option_map string_bytes name ≡ second_name encoding read.now) }
{
    match read {
        Ok(entry) => full_of(alloc, &entry.record.players.second, encoding),
        Err(_) => Ok(None),
    }
}

/// The title of a record, if it says one.
fn title_of(alloc: Global, text: &[u8], encoding: Encoding) -> Result<Option<String>, AllocError>
    ensures { IfOk result (λ title. option_map string_bytes title ≡ title_of encoding text.now) }
{
    let said = words_of(alloc, text)?;
    match &said.title {
        Some(title) => Ok(Some(encoding.text_of(alloc, title.as_slice())?)),
        None => Ok(None),
    }
}

/// What the file of a record without an event seems to be.
fn seems_in(read: &Result<Entry, ReadFault>, text: &[u8]) -> Option<FileKind>
    ensures { result ≡ seems_in read.now text.now }
{
    match read {
        Ok(entry) => match entry.finding {
            Finding::NoGame => Some(FileKind::of(text)),
            Finding::Legal { .. } => None,
            Finding::Illegal { .. } => None,
            Finding::Unsettled => None,
        },
        Err(_) => None,
    }
}

/// What the index says of a case in addition to its line.
fn case_words(alloc: Global, case: &Case) -> Result<RowWords, AllocError>
    ensures { IfOk result (AreWordsOf case.now.text.items case.now.read) }
{
    let text = case.text.as_slice();
    let encoding = Encoding::of(text);
    Ok(RowWords {
        title: title_of(alloc, text, encoding)?,
        first: first_of(alloc, &case.read, encoding)?,
        second: second_of(alloc, &case.read, encoding)?,
        seems: seems_in(&case.read, text),
    })
}

/// Nothing in addition to the line.
pub(crate) fn no_words() -> RowWords
    ensures { result ≡ no_words }
{
    RowWords {
        title: None,
        first: None,
        second: None,
        seems: None,
    }
}

/// What the index says of a case in addition to its line, if pages are asked for.
pub(crate) fn words_asked(alloc: Global, asked: bool, case: &Case) -> Result<RowWords, AllocError>
    ensures { IfOk result (AreWordsAsked asked case.now.text.items case.now.read) }
{
    if asked {
        case_words(alloc, case)
    } else {
        Ok(no_words())
    }
}
