//! A line with the place of its play.
ghost use Rattle.std.specs.Prelude.{◌≡◌, ◌≤◌, ◌++◌, length, IfSome, OnOk};
ghost use Rattle.std.specs.List.{position};
ghost use Rattle.gcg_numbers.specs.Lines.{is_colon};
ghost use Rattle.gcg_numbers.specs.Numbers.{after_colon};
ghost use Rattle.repair_sheets.specs.Places.{last_start, word_start, with_place, line_with_place};

use gcg_numbers::last_field;
use gcg_write::play_text;
use ref_board::{Dir, Square};
use std::alloc::AllocError;

/// Where the last field of a text begins; `None` if all its bytes are blanks.
#[tactic(auto, using(crate::proofs::Starts::starts))]
fn last_start(text: &[u8]) -> Option<usize>
    ensures start { result ≡ last_start text.now }
    ensures within { IfSome result (λ start. start ≤ length text.now) }
{
    let last = last_field(text)?;
    Some(last.front.len())
}

/// Where the third field from the end of a text begins, if it has three.
fn word_start(text: &[u8]) -> Option<usize>
    ensures start { result ≡ word_start text.now }
    ensures within { IfSome result (λ start. start ≤ length text.now) }
{
    let total = last_start(text)?;
    let score = last_start(&text[..total])?;
    last_start(&text[..score])
}

/// Appends a text with the place of its play before its word.
#[tactic(auto, using(crate::proofs::Starts::placed), unfolding(crate::specs::Places::with_place))]
fn push_with_place(out: &mut Vec<u8>, at: Square, dir: Dir, text: &[u8]) -> Result<(), AllocError>
    ensures { OnOk result (out.new.items ≡ out.old.items ++ with_place at dir text.now) }
{
    let Some(start) = word_start(text) else {
        return out.extend_from_slice(text);
    };
    out.extend_from_slice(&text[..start])?;
    play_text(at, dir, &[], out)?;
    out.extend_from_slice(&text[start..])
}

/// The place of the first colon of a line, if it has one.
fn find_colon(line: &[u8]) -> Option<usize>
    ensures { result ≡ position is_colon line.now }
{
    line.iter().position(|byte| *byte == b':')
}

/// Appends the text of a line with the place of its play before its word, behind the first colon.
#[tactic(auto, using(gcg_numbers::proofs::Colons::none, gcg_numbers::proofs::Colons::there))]
fn push_from_colon(out: &mut Vec<u8>, at: Square, dir: Dir, line: &[u8]) -> Result<(), AllocError>
    ensures { OnOk result (out.new.items ≡ out.old.items ++ after_colon (with_place at dir) line.now) }
{
    let Some(colon) = find_colon(line) else {
        return out.extend_from_slice(line);
    };
    out.extend_from_slice(&line[..colon + 1])?;
    push_with_place(out, at, dir, &line[colon + 1..])
}

/// Appends a line with the place of its play; a CR at its end stays there.
pub(crate) fn push_placed(
    out: &mut Vec<u8>,
    at: Square,
    dir: Dir,
    line: &[u8],
) -> Result<(), AllocError>
    ensures { OnOk result (out.new.items ≡ out.old.items ++ line_with_place at dir line.now) }
{
    match line {
        [front @ .., b'\r'] => {
            push_from_colon(out, at, dir, front)?;
            out.push(b'\r')?;
            Ok(())
        }
        _ => push_from_colon(out, at, dir, line),
    }
}
