//! What replaces the lines of a sheet without a slip that runs through it.
ghost use Rattle.std.specs.Prelude.{◌≡◌, ◌<◌, ◌^◌, ◌++◌, slice_get, IfOk, OnOk};
ghost use Rattle.std.specs.List.{join_with_byte};
ghost use Rattle.repair_rewrites.specs.EventLines.{raw_lines};
ghost use Rattle.repair_rewrites.specs.Running.{anew_or_numbered, of_event, line_without, lines_without, text_without};
ghost use Rattle.repair_rewrites.specs.Texts.{number_after};

use crate::replacing::{event_at, push_return};
use gcg_numbers::{cut_raw_line, is_event_line, push_line_with, push_mark};
use gcg_read::{Event, Players};
use gcg_write::line_text;
use repair_sheets::{RunningSlip, changes};
use std::alloc::{AllocError, Global};
use text_lines::without_mark;

/// The number of event lines up to and including a line, given the number before it.
fn next_number(line: &[u8], number: usize) -> usize
    requires { number < 2 ^ 63 }
    ensures { result ≡ number_after line.now number }
{
    if is_event_line(line) {
        number + 1
    } else {
        number
    }
}

/// What a sheet is written from: the slip and the place where it begins, and the events without it.
#[derive(Clone, Copy)]
struct Rewritten<'a> {
    players: &'a Players,
    slip: RunningSlip,
    place: usize,
    right: &'a [Event],
}

impl Rewritten<'_> {
    /// Appends the line of an event: written anew if the slip changes it, with the right numbers otherwise.
    fn push_either(
        &self,
        out: &mut Vec<u8>,
        line: &[u8],
        number: usize,
        event: &Event,
    ) -> Result<(), AllocError>
        ensures { OnOk result (out.new.items ≡ out.old.items ++ anew_or_numbered self.now.slip self.now.place self.now.players.now number line.now event.now) }
    {
        if self.place <= number && changes(self.slip, &event.kind) {
            line_text(self.players, event, out)?;
            return push_return(out, line);
        }
        push_line_with(out, line, event)
    }

    /// Appends the line of the event with a number, if there is such an event; otherwise the line as it is.
    fn push_event(&self, out: &mut Vec<u8>, line: &[u8], number: usize) -> Result<(), AllocError>
        ensures { OnOk result (out.new.items ≡ out.old.items ++ of_event self.now.slip self.now.place self.now.players.now number line.now (slice_get self.now.right.now number)) }
    {
        match event_at(self.right, number) {
            Some(event) => self.push_either(out, line, number, event),
            None => out.extend_from_slice(line),
        }
    }

    /// Appends a line before which there are `number` event lines.
    fn push_line(&self, out: &mut Vec<u8>, line: &[u8], number: usize) -> Result<(), AllocError>
        ensures { OnOk result (out.new.items ≡ out.old.items ++ line_without self.now.slip self.now.place self.now.players.now self.now.right.now number line.now) }
    {
        if is_event_line(line) {
            self.push_event(out, line, number)
        } else {
            out.extend_from_slice(line)
        }
    }

    /// Appends the text of the sheet.
    #[tactic(auto, using(crate::proofs::Rewriting::one_line_more, crate::proofs::Rewriting::few_parts))]
    fn push_text(&self, out: &mut Vec<u8>, text: &[u8]) -> Result<(), AllocError>
        ensures { OnOk result (out.new.items ≡ out.old.items ++ join_with_byte 10 (lines_without self.now.slip self.now.place self.now.players.now self.now.right.now 0 (raw_lines text.now))) }
    {
        let mut number = 0;
        let mut cut = cut_raw_line(text);
        while let Some(after) = cut.after {
            self.push_line(out, cut.line, number)?;
            out.push(b'\n')?;
            number = next_number(cut.line, number);
            cut = cut_raw_line(after);
        }
        self.push_line(out, cut.line, number)
    }
}

/// The text of a sheet without a slip that runs through it from a place on, given the events without it.
///
/// It fails only if memory runs out.
#[tactic(auto, unfolding(crate::specs::Running::text_without))]
pub(crate) fn text_without(
    alloc: Global,
    text: &[u8],
    players: &Players,
    slip: RunningSlip,
    place: usize,
    right: &[Event],
) -> Result<Vec<u8>, AllocError>
    ensures { IfOk result (λ made. made.items ≡ text_without slip place players.now right.now text.now) }
{
    let rewritten = Rewritten {
        players,
        slip,
        place,
        right,
    };
    let mut out = Vec::new(alloc);
    push_mark(&mut out, text)?;
    rewritten.push_text(&mut out, without_mark(text))?;
    Ok(out)
}
