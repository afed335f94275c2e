//! What the line of a game says.
ghost use Rattle.std.specs.Prelude.{◌≡◌, IfOk};
ghost use Rattle.archive_lines.specs.Said.{SaysEntry};
ghost use Rattle.gcg_about.specs.Encodings.{encoding_of};
ghost use Rattle.archive_answers.specs.Lines.{count_unread, SaysRead, with_asked};

use archive_lines::{Fields, LikelyFields, PageField};
use game_case::{Case, Entry};
use gcg_about::Encoding;
use gcg_unread::unread_lines;
use std::alloc::{AllocError, Global};

/// What the line of an entry says, by the text of its record.
fn entry_fields<'n>(
    alloc: Global,
    name: &'n str,
    entry: &Entry,
    text: &[u8],
) -> Result<Fields<'n>, AllocError>
    ensures { IfOk result (SaysEntry name.entry entry.now (encoding_of text.now) (count_unread text.now)) }
{
    let unread = unread_lines(alloc, text)?.len();
    Fields::of_entry(alloc, name, entry, Encoding::of(text), unread)
}

/// What the line of a case says, but for what it says only if it is asked for.
pub(crate) fn case_fields<'n>(
    alloc: Global,
    name: &'n str,
    case: &Case,
) -> Result<Fields<'n>, AllocError>
    ensures { IfOk result (SaysRead name.entry case.now.text.items case.now.read) }
{
    match &case.read {
        Ok(entry) => entry_fields(alloc, name, entry, case.text.as_slice()),
        Err(fault) => Ok(Fields::bad_record(name, fault)),
    }
}

/// A line with what it says of the page and of the likely repair.
pub(crate) fn with_asked<'n>(
    fields: Fields<'n>,
    page: Option<PageField>,
    likely: Option<LikelyFields>,
) -> Fields<'n>
    ensures { result ≡ with_asked fields.entry page likely }
{
    let mut fields = fields;
    fields.page = page;
    fields.likely = likely;
    fields
}
