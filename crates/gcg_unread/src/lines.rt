//! The lines that are not read.
ghost use Rattle.std.specs.Prelude.{◌≡◌, ◌++◌, ◌≤◌, IfOk, OnOk, false, length};
ghost use Rattle.std.specs.List.{list_all};
ghost use Rattle.gcg_read.specs.Records.{most_bytes};
ghost use Rattle.text_lines.specs.Lines.{lines_in};
ghost use Rattle.gcg_unread.specs.Lines.{is_passed_over, is_gap, is_note, note_after, why_before, why_without, why_parts, why_unread, listed, unread_from, unread_of};

use crate::moves::has_move;
use crate::readings::{before_mark, from_mark, has_event, is_marked_event};
use crate::reasons::UnreadWhy;
use gcg_read::MAX_BYTES;
use std::alloc::{AllocError, Global};
use text_lines::{Lines, without_mark};

/// A line that is not read although it looks like an event.
#[derive(Clone, Copy, Debug, PartialEq, Eq)]
pub struct UnreadLine {
    /// Its number, counted from 1.
    pub line: u32,
    /// Why it is not read.
    pub why: UnreadWhy,
}

/// Whether the reader of records takes nothing from a line, and the line has a byte.
fn is_passed_over(line: &[u8]) -> bool
    ensures { result ≡ is_passed_over line.now }
{
    match line {
        [] => false,
        [first, ..] => *first != b'>' && *first != b'#',
    }
}

/// Whether a byte is a space, a tab, or one of a no-break space.
fn is_gap(byte: u8) -> bool
    ensures { result ≡ is_gap byte }
{
    byte == b' ' || byte == b'\t' || byte == 0xc2 || byte == 0xa0
}

/// Whether a text is only gaps.
fn are_gaps(text: &[u8]) -> bool
    ensures { result ≡ list_all is_gap text.now }
{
    text.iter().all(|byte| is_gap(*byte))
}

/// Whether a line begins a note.
fn is_note(line: &[u8]) -> bool
    ensures { result ≡ is_note line.now }
{
    line.starts_with(b"#note")
}

/// Whether a note may go on after a line, by whether it may go on there: it begins with its pragma, and ends at the next event or pragma.
fn note_after(in_note: bool, line: &[u8]) -> bool
    ensures { result ≡ note_after in_note line.now }
{
    match line {
        [b'>', ..] => false,
        [b'#', ..] => is_note(line),
        _ => in_note,
    }
}

/// Why a line is not read that is an event from its first `>` on.
fn why_before(line: &[u8]) -> UnreadWhy
    ensures { result ≡ why_before line.now }
{
    if are_gaps(before_mark(line)) {
        UnreadWhy::Blank
    } else {
        UnreadWhy::Before
    }
}

/// Why a line is not read that is an event with `>` in front.
fn why_without(line: &[u8]) -> UnreadWhy
    ensures { result ≡ why_without line.now }
{
    match line {
        [first, ..] if first.is_ascii_punctuation() => UnreadWhy::OtherSign,
        _ => UnreadWhy::NoMark,
    }
}

/// Why a line that is no event is not read: it has parts of one, and is not in a note.
fn why_parts(alloc: Global, in_note: bool, line: &[u8]) -> Result<Option<UnreadWhy>, AllocError>
    ensures { IfOk result (λ why. why ≡ why_parts in_note line.now) }
{
    if in_note {
        return Ok(None);
    }
    if has_move(alloc, line)? {
        return Ok(Some(UnreadWhy::Parts));
    }
    Ok(None)
}

/// Why a line is not read, if it looks like an event. In a note only a whole event does.
#[tactic(auto, unfolding(crate::specs::Lines::why_unread))]
fn why_unread(alloc: Global, in_note: bool, line: &[u8]) -> Result<Option<UnreadWhy>, AllocError>
    ensures { IfOk result (λ why. why ≡ why_unread in_note line.now) }
{
    if !is_passed_over(line) {
        return Ok(None);
    }
    if has_event(alloc, from_mark(line))? {
        return Ok(Some(why_before(line)));
    }
    if is_marked_event(alloc, line)? {
        return Ok(Some(why_without(line)));
    }
    why_parts(alloc, in_note, line)
}

/// Appends a line to those that are not read, if there is a reason.
fn push_listed(
    found: &mut Vec<UnreadLine>,
    line: u32,
    why: Option<UnreadWhy>,
) -> Result<(), AllocError>
    ensures { OnOk result (found.new.items ≡ found.old.items ++ listed line why) }
{
    match why {
        None => Ok(()),
        Some(why) => {
            found.push(UnreadLine { line, why })?;
            Ok(())
        }
    }
}

/// The lines of a text after its mark that are not read although they look like events.
#[tactic(auto, using(crate::proofs::Steps::steps), unfolding(crate::specs::Lines::unread_from))]
fn unread_in(alloc: Global, text: &[u8]) -> Result<Vec<UnreadLine>, AllocError>
    requires { length text.now ≤ most_bytes }
    ensures { IfOk result (λ found. found.items ≡ unread_from false 1 (lines_in text.now)) }
{
    let mut found = Vec::new(alloc);
    let mut in_note = false;
    let mut number = 0;
    for line in Lines::of(text) {
        number += 1;
        let why = why_unread(alloc, in_note, line)?;
        push_listed(&mut found, number, why)?;
        in_note = note_after(in_note, line);
    }
    Ok(found)
}

/// The lines of the text of a record that its reader passes over although they look like events, in their order: those that would be an event but for
/// what they begin with, and outside notes also those that have a position or a code, and two numbers. A text of more than 1 MiB, which is no record,
/// has none. Each has the first reason that holds.
///
/// # Errors
///
/// Memory was refused.
#[tactic(auto, unfolding(crate::specs::Lines::unread_of))]
pub fn unread_lines(alloc: Global, text: &[u8]) -> Result<Vec<UnreadLine>, AllocError>
    ensures { IfOk result (λ found. found.items ≡ unread_of text.now) }
{
    if text.len() > MAX_BYTES {
        return Ok(Vec::new(alloc));
    }
    unread_in(alloc, without_mark(text))
}
