//! A line of a text by its number.
ghost use Rattle.std.specs.Prelude.{◌≡◌, ◌+◌, option_map, slice_get};
ghost use Rattle.text_lines.specs.Lines.{without_mark, lines_in};
ghost use Rattle.explain_clues.specs.Lines.{line_of};

use text_lines::{cut_line, without_mark};

/// The line after `others` lines.
fn line_after(text: &[u8], others: u32) -> Option<&[u8]>
    ensures { option_map (λ line. line.now) result ≡ slice_get (lines_in (without_mark text.now)) others }
{
    let mut remaining = Some(without_mark(text));
    for k in 0..others {
        let Some(rest) = remaining else {
            return None;
        };
        remaining = cut_line(rest).after;
    }
    match remaining {
        None => None,
        Some(rest) => Some(cut_line(rest).line),
    }
}

/// The line of a text with a number, counted from 1, without its end. None if the text has fewer lines.
pub fn line_of(text: &[u8], number: u32) -> Option<&[u8]>
    ensures { option_map (λ line. line.now) result ≡ line_of text.now number }
{
    if number == 0 {
        return None;
    }
    line_after(text, number - 1)
}
