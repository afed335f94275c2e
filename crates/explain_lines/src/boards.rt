//! The board before a line, with the squares of a play in brackets.

use crate::words::push_play;
use explain_answers::Shown;
use explain_clues::ShownSquare;
use explain_parts::say;
use std::alloc::AllocError;

/// How many squares a row has.
const SIDE: usize = 15;

/// Appends the words of a play, and the board before it.
pub fn push_shown(text: &mut Vec<u8>, line: u32, shown: &Shown) -> Result<(), AllocError> {
    if let Some(play) = &shown.play {
        push_play(text, play)?;
    }
    let end = if shown.is_play {
        ", the squares of the play in brackets\n"
    } else {
        "\n"
    };
    say!(text; "board before line ", line, end)?;
    push_board(text, shown.squares.as_slice())
}

/// What comes between two squares of a row: a bracket where the marked squares begin or end.
fn between(before: bool, here: bool) -> u8 {
    match (before, here) {
        (false, true) => b'[',
        (true, false) => b']',
        (false, false) | (true, true) => b' ',
    }
}

/// Appends the squares of a row.
fn push_squares(text: &mut Vec<u8>, row: &[ShownSquare]) -> Result<(), AllocError> {
    let mut before = false;
    for square in row {
        text.push(between(before, square.is_marked))?;
        text.push(square.mark)?;
        before = square.is_marked;
    }
    text.extend_from_slice(if before { b"]\n" } else { b"\n" })
}

/// Appends the squares of a board, with those of a play in brackets.
fn push_board(text: &mut Vec<u8>, squares: &[ShownSquare]) -> Result<(), AllocError> {
    text.extend_from_slice(b"   A B C D E F G H I J K L M N O\n")?;
    for row in 0..SIDE {
        let front = if row < 9 { " " } else { "" };
        say!(text; front, row + 1)?;
        push_squares(
            text,
            squares.get(SIDE * row..SIDE * row + SIDE).unwrap_or(&[]),
        )?;
    }
    text.extend_from_slice(
        b"= triple word, - double word, \" triple letter, ' double letter\nsmall letters are blanks\n",
    )
}
