//! The board of a record or of a draft, in words: the text that `board` writes, made only from the value.

use engine_stages::{Decision, InputFault};
use game_answers::{RowMarks, ShownBoard};
use gcg_read::Seat;
use gcg_write::tiles_text;
use ref_play::PlayFault;
use ref_tiles::Counts;
use reply_answers::ShownSheet;
use reply_calls::Printed;
use std::alloc::{AllocError, Global};
use text_decimals::push_number;

/// The maximum number of bytes of a nickname that are written.
const NICK: usize = 60;

/// The kinds of tiles.
const KINDS: &[u8] = b"ABCDEFGHIJKLMNOPQRSTUVWXYZ?";

/// Appends which board it is, by the line of its event, and why the play of that event cannot be laid, if it cannot.
fn push_heading(
    text: &mut Vec<u8>,
    line: Option<u32>,
    fault: Option<PlayFault>,
) -> Result<(), AllocError> {
    match line {
        None => text.extend_from_slice(b"board after the last event")?,
        Some(line) => {
            text.extend_from_slice(b"board before line ")?;
            push_number(text, line)?;
        }
    }
    if let Some(why) = fault {
        text.extend_from_slice(b", whose play cannot be laid: ")?;
        text.extend_from_slice(why.name().as_bytes())?;
    }
    text.push(b'\n')?;
    Ok(())
}

/// Appends the line of a row: its number in two places, and each mark after a space.
fn push_row(text: &mut Vec<u8>, row: usize, marks: &RowMarks) -> Result<(), AllocError> {
    if row < 9 {
        text.push(b' ')?;
    }
    push_number(text, row.saturating_add(1))?;
    for mark in marks.as_slice() {
        text.push(b' ')?;
        text.push(*mark)?;
    }
    text.push(b'\n')?;
    Ok(())
}

/// Appends the names of the columns, the rows, and what the marks mean.
fn push_rows(text: &mut Vec<u8>, rows: &[RowMarks]) -> Result<(), AllocError> {
    text.extend_from_slice(b"   A B C D E F G H I J K L M N O\n")?;
    for (row, marks) in rows.iter().enumerate() {
        push_row(text, row, marks)?;
    }
    text.extend_from_slice(
        b"= triple word, - double word, \" triple letter, ' double letter\nsmall letters are blanks\n",
    )
}

/// Appends the line of a player with a total.
fn push_player(text: &mut Vec<u8>, nick: &[u8], total: i32) -> Result<(), AllocError> {
    let end = NICK.min(nick.len());
    text.extend_from_slice(&nick[..end])?;
    text.push(b' ')?;
    push_number(text, total)?;
    text.push(b'\n')?;
    Ok(())
}

/// Appends a rack, if there is one.
fn push_rack(text: &mut Vec<u8>, rack: &Option<Counts>) -> Result<(), AllocError> {
    let Some(rack) = rack else {
        return Ok(());
    };
    text.extend_from_slice(b"rack ")?;
    tiles_text(rack, text)?;
    text.push(b'\n')?;
    Ok(())
}

/// Appends the byte of a kind and how many tiles of it are not on the board. Nine kinds are on a line.
fn push_kind(text: &mut Vec<u8>, kind: u8, many: usize) -> Result<(), AllocError> {
    text.extend_from_slice(b"  ")?;
    text.push(kind)?;
    text.push(b' ')?;
    push_number(text, many)?;
    if matches!(kind, b'I' | b'R' | b'?') {
        text.push(b'\n')?;
    }
    Ok(())
}

/// Appends the tiles that are not on the board.
fn push_off(text: &mut Vec<u8>, many: usize, off: &[usize]) -> Result<(), AllocError> {
    text.extend_from_slice(b"tiles not on the board: ")?;
    push_number(text, many)?;
    text.push(b'\n')?;
    for (kind, many) in KINDS.iter().zip(off) {
        push_kind(text, *kind, *many)?;
    }
    Ok(())
}

/// The text of a board.
fn board_text(alloc: Global, board: &ShownBoard) -> Result<Vec<u8>, AllocError> {
    let mut text = Vec::new(alloc);
    push_heading(&mut text, board.line, board.fault)?;
    push_rows(&mut text, board.rows.as_slice())?;
    let players = &board.players;
    push_player(
        &mut text,
        players.of(Seat::First).nick.as_bytes(),
        board.first,
    )?;
    push_player(
        &mut text,
        players.of(Seat::Second).nick.as_bytes(),
        board.second,
    )?;
    push_rack(&mut text, &board.rack)?;
    push_off(&mut text, board.off_in_all, board.off.as_slice())?;
    Ok(text)
}

/// A decision alone.
fn decision_words(alloc: Global, decision: &Decision) -> Result<Printed, AllocError> {
    Printed::of_bytes(alloc, decision.report.as_slice())
}

/// A board in words; or that no event is on the line or after it, or that the text is not a record.
pub fn board_words(alloc: Global, sheet: &ShownSheet) -> Result<Printed, AllocError> {
    match &sheet.found {
        Err(decision) => decision_words(alloc, decision),
        Ok(None) => decision_words(alloc, &Decision::refused(alloc, InputFault::Line)?),
        Ok(Some(board)) => Ok(Printed::report(board_text(alloc, board)?)),
    }
}
