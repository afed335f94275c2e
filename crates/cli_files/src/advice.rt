//! What is said on standard error besides a report: what is wrong with a file that is not a game.

use crate::sources::shown;
use explain_records::{MOST_NAMED, other_faults, push_missing, push_record_fault};
use gcg_about::Encoding;
use gcg_read::{ReadFault, Why, read};
use gcg_unread::unread_lines;
use io_kinds::{FileKind, has_events};
use io_watch::Front;
use std::alloc::{AllocError, Global};
use std::rt::Runtime;

/// Whether the text that was read is a record.
pub fn is_record(alloc: Global, game: &Front) -> bool {
    match game.whole() {
        Some(text) => read(alloc, text).is_ok(),
        None => false,
    }
}

/// Whether the text that was read is a record with an event.
pub fn has_game(alloc: Global, game: &Front) -> bool {
    match game.whole() {
        Some(text) => match read(alloc, text) {
            Ok(record) => !record.events.is_empty(),
            Err(_) => false,
        },
        None => false,
    }
}

/// Says why the record that was read has no game, if it has no event.
pub fn advise_no_game<R: Runtime>(rt: &R, name: &str, game: &Front) {
    if let Some(text) = game.whole() {
        if !has_events(text) {
            let (name, why) = (shown(name), FileKind::of(text).sentence());
            let _ = rt.eprintln(format_args!("referee: {name} has no event: {why}"));
        }
    }
}

/// Says which lines of the text that was read are not read although they look like events: the first of them one by one.
pub fn advise_unread<R: Runtime + AllocGlobal>(rt: &R, name: &str, game: &Front) {
    let Some(text) = game.whole() else {
        return;
    };
    let Ok(lines) = unread_lines(rt.alloc(), text) else {
        return;
    };
    let name = shown(name);
    for unread in lines.as_slice().iter().take(MOST_NAMED) {
        let (line, why) = (unread.line, unread.why);
        let _ = rt.eprintln(format_args!("referee: {name}: line {line} is not read: {why}"));
    }
    advise_more(rt, name, "lines that are not read", lines.len());
}

/// Says how many more there are than those that are named one by one, if there are more.
fn advise_more<R: Runtime>(rt: &R, name: &str, what: &str, many: usize) {
    let more = many.saturating_sub(MOST_NAMED);
    if more > 0 {
        let _ = rt.eprintln(format_args!("referee: {name}: more {what}: {more}"));
    }
}

/// Says what is wrong with a line of a text, by its fault.
fn advise_fault<R: Runtime + AllocGlobal>(rt: &R, name: &str, text: &[u8], fault: ReadFault) {
    let Ok(sentence) = sentence_of(rt.alloc(), text, fault) else {
        return;
    };
    let line = fault.line;
    let _ = match line {
        0 => rt.eprintln(format_args!("referee: {name}: {sentence}")),
        _ => rt.eprintln(format_args!("referee: {name} line {line}: {sentence}")),
    };
}

/// Says what is wrong with the line of the first fault of the text that was read, and with its other lines that begin like events and are none.
pub fn advise_bad_record<R: Runtime + AllocGlobal>(rt: &R, name: &str, game: &Front) {
    let Some(text) = game.whole() else {
        return;
    };
    let Err(fault) = read(rt.alloc(), text) else {
        return;
    };
    let name = shown(name);
    advise_fault(rt, name, text, fault);
    let Ok(others) = other_faults(rt.alloc(), text, fault) else {
        return;
    };
    for other in others.as_slice().iter().take(MOST_NAMED) {
        advise_fault(rt, name, text, *other);
    }
    advise_more(
        rt,
        name,
        "lines that begin with > and are not events",
        others.len(),
    );
}

/// Appends what a file seems to be, if it is not a text of lines.
fn push_kind(sentence: &mut Vec<u8>, kind: FileKind) -> Result<(), AllocError> {
    if matches!(kind, FileKind::Other | FileKind::Indented | FileKind::Words) {
        return Ok(());
    }
    sentence.extend_from_slice(b" (")?;
    sentence.extend_from_slice(kind.sentence().as_bytes())?;
    sentence.push(b')')?;
    Ok(())
}

/// What is wrong with the line of a fault, in one line.
fn sentence_of(alloc: Global, text: &[u8], fault: ReadFault) -> Result<String, AllocError> {
    if fault.why == Why::NoMemory {
        return Err(AllocError);
    }
    let mut sentence = Vec::new(alloc);
    push_record_fault(alloc, &mut sentence, text, fault.line, fault.why)?;
    sentence.pop();
    push_missing(&mut sentence, text, fault)?;
    push_kind(&mut sentence, FileKind::of(text))?;
    Encoding::of(text).text_of(alloc, sentence.as_slice())
}
