//! The event lines of a text.
ghost use Rattle.std.specs.Prelude.{◌≡◌, ◌++◌, ◌∷◌, [], filter, IfOk, OnOk};
ghost use Rattle.gcg_numbers.specs.Numbers.{is_event_line};
ghost use Rattle.repair_rewrites.specs.EventLines.{event_lines, texts};

use gcg_numbers::{cut_raw_line, is_event_line};
use std::alloc::{AllocError, Global};
use text_lines::without_mark;

/// Adds a line, if it is that of an event.
fn push_if_event<'t>(lines: &mut Vec<&'t [u8]>, line: &'t [u8]) -> Result<(), AllocError>
    ensures { OnOk result (texts lines.new.items ≡ texts lines.old.items ++ filter is_event_line (line.now ∷ [])) }
{
    if is_event_line(line) {
        lines.push(line)?;
    }
    Ok(())
}

/// The event lines of a text, each without its LF, but with the CR that may be before that.
#[tactic(auto, using(crate::proofs::Lines::one_line_more))]
pub(crate) fn event_lines<'t>(alloc: Global, text: &'t [u8]) -> Result<Vec<&'t [u8]>, AllocError>
    ensures { IfOk result (λ lines. texts lines.items ≡ event_lines text.now) }
{
    let mut lines = Vec::new(alloc);
    let mut cut = cut_raw_line(without_mark(text));
    while let Some(after) = cut.after {
        push_if_event(&mut lines, cut.line)?;
        cut = cut_raw_line(after);
    }
    push_if_event(&mut lines, cut.line)?;
    Ok(lines)
}
