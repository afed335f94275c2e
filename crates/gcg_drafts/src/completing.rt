//! The text of a draft with numbers in the place of those that are missing.
ghost use Rattle.std.specs.Prelude.{◌≡◌, ◌++◌, OnOk};
ghost use Rattle.std.specs.List.{position};
ghost use Rattle.gcg_numbers.specs.Lines.{is_colon};
ghost use Rattle.gcg_numbers.specs.Numbers.{last_field, after_colon, in_line};
ghost use Rattle.gcg_drafts.specs.Texts.{gap_after, with_end, completed, completed_line, completed_text};

use crate::lacks::lacks_in;
use crate::missing::Missing;
use bstr::ByteSlice;
use gcg_numbers::{cut_raw_line, is_event_line, last_field, push_mark};
use std::alloc::AllocError;
use text_lines::without_mark;

/// Appends a space, if there is no blank at the end of a text that has a field.
fn push_gap(out: &mut Vec<u8>, text: &[u8]) -> Result<(), AllocError>
    ensures { OnOk result (out.new.items ≡ out.old.items ++ gap_after (last_field text.now)) }
{
    let Some(last) = last_field(text) else {
        return Ok(());
    };
    if last.back.is_empty() {
        out.push(b' ')?;
    }
    Ok(())
}

/// Appends a text with numbers at its end.
fn push_with_end(out: &mut Vec<u8>, text: &[u8], numbers: &[u8]) -> Result<(), AllocError>
    ensures { OnOk result (out.new.items ≡ out.old.items ++ with_end text.now numbers.now) }
{
    out.extend_from_slice(text)?;
    push_gap(out, text)?;
    out.extend_from_slice(numbers)
}

/// Appends the text after the colon of an event line with numbers in the place of those that are missing.
#[tactic(auto, unfolding(crate::specs::Texts::completed))]
fn push_after_colon(out: &mut Vec<u8>, text: &[u8]) -> Result<(), AllocError>
    ensures { OnOk result (out.new.items ≡ out.old.items ++ completed text.now) }
{
    match lacks_in(text) {
        Ok(Missing::Total) => push_with_end(out, text, b"0"),
        Ok(Missing::Both) => push_with_end(out, text, b"+0 0"),
        Ok(Missing::Nothing) | Err(_) => out.extend_from_slice(text),
    }
}

/// The place of the first colon of a line.
#[tactic(auto, using(text_lines::proofs::Cuts::first_byte))]
fn find_colon(line: &[u8]) -> Option<usize>
    ensures { result ≡ position is_colon line.now }
{
    line.find_byte(b':')
}

/// Appends the text of an event line, of which what follows the first colon is completed.
#[tactic(auto, using(gcg_numbers::proofs::Colons::none, gcg_numbers::proofs::Colons::there))]
fn push_from_colon(out: &mut Vec<u8>, line: &[u8]) -> Result<(), AllocError>
    ensures { OnOk result (out.new.items ≡ out.old.items ++ after_colon completed line.now) }
{
    let Some(colon) = find_colon(line) else {
        return out.extend_from_slice(line);
    };
    out.extend_from_slice(&line[..colon + 1])?;
    push_after_colon(out, &line[colon + 1..])
}

/// Appends an event line; a CR at its end stays there.
fn push_event_line(out: &mut Vec<u8>, line: &[u8]) -> Result<(), AllocError>
    ensures { OnOk result (out.new.items ≡ out.old.items ++ in_line (after_colon completed) line.now) }
{
    match line {
        [front @ .., b'\r'] => {
            push_from_colon(out, front)?;
            out.push(b'\r')?;
            Ok(())
        }
        _ => push_from_colon(out, line),
    }
}

/// Appends a line of a draft, completed if it is that of an event.
#[tactic(auto, unfolding(crate::specs::Texts::completed_line))]
fn push_completed_line(out: &mut Vec<u8>, line: &[u8]) -> Result<(), AllocError>
    ensures { OnOk result (out.new.items ≡ out.old.items ++ completed_line line.now) }
{
    if is_event_line(line) {
        return push_event_line(out, line);
    }
    out.extend_from_slice(line)
}

/// Appends the text of a draft with a score `+0` and a total `0` in the place of those that are missing. They come at the end of their line, after a
/// space if there is no blank, and before a CR. Nothing else is changed.
///
/// # Errors
///
/// Memory ran out.
#[tactic(auto, using(crate::proofs::Rounds::one_line_more, crate::proofs::Rounds::at_the_end), unfolding(crate::specs::Texts::completed_text))]
pub fn push_completed(out: &mut Vec<u8>, text: &[u8]) -> Result<(), AllocError>
    ensures { OnOk result (out.new.items ≡ out.old.items ++ completed_text text.now) }
{
    let unmarked = without_mark(text);
    push_mark(out, text)?;
    let mut cut = cut_raw_line(unmarked);
    while let Some(after) = cut.after {
        push_completed_line(out, cut.line)?;
        out.push(b'\n')?;
        cut = cut_raw_line(after);
    }
    push_completed_line(out, cut.line)
}
