//! Words and lines in a row.

use explain_parts::say;
use game_turns::SpelledWord;
use std::alloc::AllocError;

/// What comes after an item, if `remaining` items come after it.
fn between(remaining: usize) -> &'static str {
    match remaining {
        0 => "",
        1 => " and ",
        _ => ", ",
    }
}

/// Appends words, with a comma or an `and` between two.
pub fn push_words(text: &mut Vec<u8>, words: &[SpelledWord]) -> Result<(), AllocError> {
    let mut remaining = words.len();
    for word in words {
        remaining = remaining.saturating_sub(1);
        say!(text; word.letters.as_slice(), between(remaining))?;
    }
    Ok(())
}

/// Appends the numbers of lines, with a comma or an `and` between two.
pub fn push_lines(text: &mut Vec<u8>, lines: &[u32]) -> Result<(), AllocError> {
    let mut remaining = lines.len();
    for line in lines {
        remaining = remaining.saturating_sub(1);
        say!(text; *line, between(remaining))?;
    }
    Ok(())
}
