//! The text of a sheet with other numbers, line by line.
ghost use Rattle.std.specs.Prelude.{◌≡◌, ◌≤◌, ◌++◌, ◌∷◌, ℕ, List, drop, length, IfOk, OnOk};
ghost use Rattle.std.specs.List.{position};
ghost use Rattle.gcg_numbers.specs.Lines.{is_colon, first_with};
ghost use Rattle.gcg_numbers.specs.Numbers.{with_numbers, after_colon, line_with, lines_with, text_with};

use crate::numbers::push_numbers;
use crate::raw_lines::{cut_raw_line, is_event_line, push_mark};
use bstr::ByteSlice;
use gcg_read::Event;
use std::alloc::AllocError;
use text_lines::without_mark;

/// The place of the first colon of a line.
#[tactic(auto, using(text_lines::proofs::Cuts::first_byte))]
fn find_colon(line: &[u8]) -> Option<usize>
    ensures { result ≡ position is_colon line.now }
{
    line.find_byte(b':')
}

/// Appends the text of an event line with the numbers of its event, which come after the first colon.
#[tactic(auto, using(crate::proofs::Colons::none, crate::proofs::Colons::there))]
fn push_from_colon(out: &mut Vec<u8>, line: &[u8], event: &Event) -> Result<(), AllocError>
    ensures { OnOk result (out.new.items ≡ out.old.items ++ after_colon (with_numbers event.now) line.now) }
{
    let Some(colon) = find_colon(line) else {
        return out.extend_from_slice(line);
    };
    out.extend_from_slice(&line[..colon + 1])?;
    push_numbers(out, &line[colon + 1..], event)
}

/// Appends an event line with the numbers of its event; a CR at its end stays.
///
/// # Errors
///
/// Memory ran out.
#[tactic(auto, unfolding(crate::specs::Numbers::line_with))]
pub fn push_line_with(out: &mut Vec<u8>, line: &[u8], event: &Event) -> Result<(), AllocError>
    ensures { OnOk result (out.new.items ≡ out.old.items ++ line_with event.now line.now) }
{
    match line {
        [front @ .., b'\r'] => {
            push_from_colon(out, front, event)?;
            out.push(b'\r')?;
            Ok(())
        }
        _ => push_from_colon(out, line, event),
    }
}

/// Appends a line of a sheet with the numbers of the first of the events, if it is an event line and there is an event; returns the
/// number of events used.
#[tactic(auto, using(crate::proofs::Rounds::of_event, crate::proofs::Rounds::of_none, crate::proofs::Rounds::of_other))]
fn push_next(out: &mut Vec<u8>, line: &[u8], events: &[Event]) -> Result<usize, AllocError>
    ensures bound { IfOk result (λ taken. taken ≤ length events.now) }
    ensures line { IfOk result (λ taken. (lines : List (List ℕ)) → lines_with events.now (line.now ∷ lines) ≡ first_with events.now line.now ∷ lines_with (drop taken events.now) lines) }
    ensures done { OnOk result (out.new.items ≡ out.old.items ++ first_with events.now line.now) }
{
    let Some(event) = events.first() else {
        out.extend_from_slice(line)?;
        return Ok(0);
    };
    if is_event_line(line) {
        push_line_with(out, line, event)?;
        return Ok(1);
    }
    out.extend_from_slice(line)?;
    Ok(0)
}

/// Appends the text of a sheet with the scores and the totals of events, the first of which belongs to the first event line. Only
/// these numbers are changed, and only if they are not already written so.
///
/// # Errors
///
/// Memory ran out.
#[tactic(auto, using(crate::proofs::Rounds::one_line_more, crate::proofs::Rounds::at_the_end), unfolding(crate::specs::Numbers::text_with))]
pub fn push_with_numbers(out: &mut Vec<u8>, text: &[u8], events: &[Event]) -> Result<(), AllocError>
    ensures { OnOk result (out.new.items ≡ out.old.items ++ text_with events.now text.now) }
{
    let unmarked = without_mark(text);
    push_mark(out, text)?;
    let mut cut = cut_raw_line(unmarked);
    let mut taken = 0;
    while let Some(after) = cut.after {
        taken += push_next(out, cut.line, &events[taken..])?;
        out.push(b'\n')?;
        cut = cut_raw_line(after);
    }
    push_next(out, cut.line, &events[taken..])?;
    Ok(())
}
