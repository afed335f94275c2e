//! What a line says after its first word.
ghost use Rattle.std.specs.Prelude.{◌≡◌, option_map};
ghost use Rattle.std.specs.List.{before_first, after_first};
ghost use Rattle.text_lines.specs.Fields.{is_blank};
ghost use Rattle.text_lines.specs.Lines.{lines_in};
ghost use Rattle.gcg_about.specs.Pragmas.{front_trimmed, filled, said, first_said};

use text_lines::{Lines, find_blank, find_filled};

/// A text that is cut at its first blank.
#[derive(Clone, Copy)]
struct Halves<'a> {
    front: &'a [u8],
    after: &'a [u8],
}

/// Cuts a text at its first blank, which neither half has.
fn cut_at_blank(text: &[u8]) -> Halves<'_>
    ensures front { result.front.now ≡ before_first is_blank text.now }
    ensures after { result.after.now ≡ after_first is_blank text.now }
{
    match find_blank(text) {
        None => Halves {
            front: text,
            after: &[],
        },
        Some(at) => Halves {
            front: &text[..at],
            after: &text[at + 1..],
        },
    }
}

/// The text without the blanks at its front; none if nothing is left.
#[tactic(auto, unfolding(crate::specs::Pragmas::filled))]
fn filled(text: &[u8]) -> Option<&[u8]>
    ensures { option_map (λ said. said.now) result ≡ filled text.now }
{
    match find_filled(text) {
        None => None,
        Some(start) => Some(&text[start..]),
    }
}

/// What a line says after a word and a blank; none if it begins with another word, or says nothing.
#[tactic(auto, unfolding(crate::specs::Pragmas::said))]
pub fn said<'a>(word: &[u8], line: &'a [u8]) -> Option<&'a [u8]>
    ensures { option_map (λ text. text.now) result ≡ said word.now line.now }
{
    let halves = cut_at_blank(line);
    if halves.front != word {
        return None;
    }
    filled(halves.after)
}

/// What the first line that says something after a word says there.
#[tactic(auto, using(crate::proofs::Steps::said_later, crate::proofs::Steps::said_nowhere))]
pub fn first_said<'a>(word: &[u8], text: &'a [u8]) -> Option<&'a [u8]>
    ensures { option_map (λ said. said.now) result ≡ first_said word.now (lines_in text.now) }
{
    for line in Lines::of(text) {
        if let Some(text) = said(word, line) {
            return Some(text);
        }
    }
    None
}
