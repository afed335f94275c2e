//! A line that is not read, as an event.
ghost use Rattle.std.specs.Prelude.{◌≡◌, ◌++◌, drop, OnOk};
ghost use Rattle.std.specs.List.{position};
ghost use Rattle.gcg_unread.specs.Readings.{is_mark, from_mark};
ghost use Rattle.repair_sheets.specs.Mending.{as_event};

use gcg_unread::UnreadWhy;
use std::alloc::AllocError;

/// The place of the first `>` of a line, if it has one.
fn find_mark(line: &[u8]) -> Option<usize>
    ensures { result ≡ position is_mark line.now }
{
    line.iter().position(|byte| *byte == b'>')
}

/// The line from its first `>` on; nothing if it has none.
fn from_mark(line: &[u8]) -> &[u8]
    ensures { result.now ≡ from_mark line.now }
{
    match find_mark(line) {
        None => &[],
        Some(at) => &line[at..],
    }
}

/// The line without its first byte.
pub(crate) fn after_sign(line: &[u8]) -> &[u8]
    ensures { result.now ≡ drop 1 line.now }
{
    match line {
        [] => &[],
        [_, rest @ ..] => rest,
    }
}

/// Appends a line that is not read, as an event.
pub(crate) fn push_as_event(
    out: &mut Vec<u8>,
    why: UnreadWhy,
    line: &[u8],
) -> Result<(), AllocError>
    ensures { OnOk result (out.new.items ≡ out.old.items ++ as_event why line.now) }
{
    match why {
        UnreadWhy::Blank | UnreadWhy::Before => out.extend_from_slice(from_mark(line)),
        UnreadWhy::OtherSign => {
            out.push(b'>')?;
            out.extend_from_slice(after_sign(line))
        }
        UnreadWhy::NoMark | UnreadWhy::Parts => {
            out.push(b'>')?;
            out.extend_from_slice(line)
        }
    }
}
