//! Texts of one line, read as records.
ghost use Rattle.std.specs.Prelude.{◌≡◌, ◌∷◌, IfOk};
ghost use Rattle.std.specs.List.{position, before_first};
ghost use Rattle.gcg_read.specs.Records.{record_of};
ghost use Rattle.gcg_unread.specs.Readings.{is_mark, from_mark, has_event, read_with};

use gcg_read::{Why, read};
use std::alloc::{AllocError, Global};

/// The place of the first `>` of a line, if it has one.
fn find_mark(line: &[u8]) -> Option<usize>
    ensures { result ≡ position is_mark line.now }
{
    line.iter().position(|byte| *byte == b'>')
}

/// The line from its first `>` on; nothing if it has none.
pub(crate) fn from_mark(line: &[u8]) -> &[u8]
    ensures { result.now ≡ from_mark line.now }
{
    match find_mark(line) {
        None => &[],
        Some(at) => &line[at..],
    }
}

/// What is before the first `>` of a line: all of it if it has none.
pub(crate) fn before_mark(line: &[u8]) -> &[u8]
    ensures { result.now ≡ before_first is_mark line.now }
{
    match find_mark(line) {
        None => line,
        Some(at) => &line[..at],
    }
}

/// Whether a text is a record with an event.
#[tactic(auto, using(crate::proofs::OneLine::read_so))]
pub(crate) fn has_event(alloc: Global, text: &[u8]) -> Result<bool, AllocError>
    ensures { IfOk result (λ there. there ≡ has_event text.now) }
{
    let fault = match read(alloc, text) {
        Ok(record) => return Ok(0 < record.events.len()),
        Err(fault) => fault,
    };
    if fault.why == Why::NoMemory {
        return Err(AllocError);
    }
    Ok(false)
}

/// Whether a line with `>` in front is a record with an event.
pub(crate) fn is_marked_event(alloc: Global, line: &[u8]) -> Result<bool, AllocError>
    ensures { IfOk result (λ there. there ≡ has_event (62 ∷ line.now)) }
{
    let mut text = Vec::new(alloc);
    text.push(b'>')?;
    text.extend_from_slice(line)?;
    has_event(alloc, text.as_slice())
}

/// Whether a field with what comes behind it is what an event has after its colon.
pub(crate) fn read_with(alloc: Global, field: &[u8], following: &[u8]) -> Result<bool, AllocError>
    ensures { IfOk result (λ there. there ≡ read_with field.now following.now) }
{
    let mut text = Vec::new(alloc);
    text.extend_from_slice(b">a: ")?;
    text.extend_from_slice(field)?;
    text.extend_from_slice(following)?;
    has_event(alloc, text.as_slice())
}
