//! The text of a sheet with one line mended.
ghost use Rattle.std.specs.Prelude.{◌≡◌, ◌++◌, IfOk, OnOk};
ghost use Rattle.repair_sheets.specs.Mending.{is_on, mended_line, mended_text};

use crate::as_events::{after_sign, push_as_event};
use crate::places::push_placed;
use crate::slips::SheetSlip;
use gcg_numbers::{cut_raw_line, push_mark};
use std::alloc::{AllocError, Global};
use text_lines::without_mark;

/// Whether a slip is on the line with a number.
fn is_on(slip: &SheetSlip, number: usize) -> bool
    ensures { result ≡ is_on slip.now number }
{
    match slip {
        SheetSlip::Unread(unread) => number == unread.line as usize,
        SheetSlip::ExtraMark { number: one } => number == *one as usize,
        SheetSlip::NoPlace { number: one, .. } => number == *one as usize,
        SheetSlip::Running { .. } => false,
    }
}

/// Appends the line with a number: mended, if it is the one that a slip is on, and as it is otherwise.
fn push_mended(
    out: &mut Vec<u8>,
    slip: &SheetSlip,
    number: usize,
    line: &[u8],
) -> Result<(), AllocError>
    ensures { OnOk result (out.new.items ≡ out.old.items ++ mended_line slip.now number line.now) }
{
    if !is_on(slip, number) {
        return out.extend_from_slice(line);
    }
    match slip {
        SheetSlip::Unread(unread) => push_as_event(out, unread.why, line),
        SheetSlip::ExtraMark { .. } => out.extend_from_slice(after_sign(line)),
        SheetSlip::NoPlace { at, dir, .. } => push_placed(out, *at, *dir, line),
        SheetSlip::Running { .. } => out.extend_from_slice(line),
    }
}

/// The text of a sheet without a slip that is on one line: a line that is not read is an event, with `>` in front or without what is before its `>`; or a
/// line that no record can have is without the `>` that it begins with, or has the place of its play. Each other line stays as it is; so does the whole
/// text, if the slip runs through the sheet.
///
/// It fails only if memory runs out.
#[tactic(auto, using(crate::proofs::Mended::one_line_more, crate::proofs::Mended::few_parts), unfolding(crate::specs::Mending::mended_text))]
pub fn mended_text(alloc: Global, slip: &SheetSlip, text: &[u8]) -> Result<Vec<u8>, AllocError>
    ensures { IfOk result (λ made. made.items ≡ mended_text slip.now text.now) }
{
    let mut out = Vec::new(alloc);
    push_mark(&mut out, text)?;
    let mut number = 1;
    let mut cut = cut_raw_line(without_mark(text));
    while let Some(after) = cut.after {
        push_mended(&mut out, slip, number, cut.line)?;
        out.push(b'\n')?;
        number += 1;
        cut = cut_raw_line(after);
    }
    push_mended(&mut out, slip, number, cut.line)?;
    Ok(out)
}
