//! What replaces the lines of a sheet with a change.
ghost use Rattle.std.specs.Prelude.{◌≡◌, ◌<◌, ◌++◌, length, filter, true, IfOk, OnOk};
ghost use Rattle.gcg_write.specs.Normal.{text_of_lines};
ghost use Rattle.gcg_numbers.specs.Numbers.{is_event_line};
ghost use Rattle.repair_rewrites.specs.EventLines.{raw_lines, texts};
ghost use Rattle.repair_rewrites.specs.Replacing.{exchanged, omitted, beside_missing, changed, in_place, missing_at};
ghost use Rattle.repair_rewrites.specs.Texts.{after_last, for_event, for_line, number_after, repaired_lines};

use crate::replacing::{event_at, is_missing, other_line, push_new, push_old, push_there};
use gcg_numbers::{cut_raw_line, is_event_line};
use gcg_read::{Event, Players};
use repair_changes::{Change, Slip};
use std::alloc::AllocError;

/// What a sheet is written from: its event lines, and the change with the events that it should have.
#[derive(Clone, Copy)]
pub(crate) struct Repaired<'a, 't> {
    pub(crate) players: &'a Players,
    pub(crate) change: &'a Change,
    pub(crate) right: &'a [Event],
    pub(crate) lines: &'a [&'t [u8]],
}

impl Repaired<'_, '_> {
    /// Appends the line in the place of the one with this number; `over` lines are between two that are in each other's place.
    fn push_exchanged(
        &self,
        out: &mut Vec<u8>,
        over: usize,
        number: usize,
    ) -> Result<(), AllocError>
        ensures { OnOk result (out.new.items ≡ out.old.items ++ text_of_lines (exchanged self.now.change.now.place over (texts self.now.lines.now) self.now.right.now number)) }
    {
        let line = other_line(self.lines, self.change.place, over, number);
        push_there(out, line, event_at(self.right, number))
    }

    /// Appends a line, if one of the lines should not be there.
    fn push_omitted(&self, out: &mut Vec<u8>, line: &[u8], number: usize) -> Result<(), AllocError>
        ensures { OnOk result (out.new.items ≡ out.old.items ++ text_of_lines (omitted self.now.change.now.place self.now.right.now line.now number)) }
    {
        let place = self.change.place;
        if number == place {
            return Ok(());
        }
        if place < number {
            return push_old(out, line, event_at(self.right, number - 1));
        }
        push_old(out, line, event_at(self.right, number))
    }

    /// Appends a line, if another one is missing before it or after it.
    fn push_beside_missing(
        &self,
        out: &mut Vec<u8>,
        line: &[u8],
        number: usize,
    ) -> Result<(), AllocError>
        requires { number < length self.now.lines.now }
        ensures { OnOk result (out.new.items ≡ out.old.items ++ text_of_lines (beside_missing self.now.change.now.place self.now.right.now line.now number)) }
    {
        if number < self.change.place {
            return push_old(out, line, event_at(self.right, number));
        }
        push_old(out, line, event_at(self.right, number + 1))
    }

    /// Appends a line, if one of them is written anew.
    fn push_changed(&self, out: &mut Vec<u8>, line: &[u8], number: usize) -> Result<(), AllocError>
        ensures { OnOk result (out.new.items ≡ out.old.items ++ text_of_lines (changed self.now.change.now.place self.now.players.now self.now.right.now line.now number)) }
    {
        let event = event_at(self.right, number);
        if number == self.change.place {
            return push_new(out, self.players, event, line);
        }
        push_old(out, line, event)
    }

    /// Appends what replaces an event line.
    fn push_in_place(&self, out: &mut Vec<u8>, line: &[u8], number: usize) -> Result<(), AllocError>
        requires { number < length self.now.lines.now }
        ensures { OnOk result (out.new.items ≡ out.old.items ++ text_of_lines (in_place self.now.change.now.slip self.now.change.now.place self.now.players.now (texts self.now.lines.now) self.now.right.now line.now number)) }
    {
        match &self.change.slip {
            Slip::Swapped => self.push_exchanged(out, 1, number),
            Slip::SwappedOver => self.push_exchanged(out, 2, number),
            Slip::Repeated | Slip::ExtraPass | Slip::Extra => {
                self.push_omitted(out, line, number)
            }
            Slip::Missing(_) => self.push_beside_missing(out, line, number),
            _ => self.push_changed(out, line, number),
        }
    }

    /// Appends the missing line, if it is missing at this number.
    fn push_missing(
        &self,
        out: &mut Vec<u8>,
        beside: &[u8],
        number: usize,
    ) -> Result<(), AllocError>
        ensures { OnOk result (out.new.items ≡ out.old.items ++ text_of_lines (missing_at self.now.change.now number self.now.players.now self.now.right.now beside.now)) }
    {
        if is_missing(&self.change.slip) && number == self.change.place {
            return push_new(out, self.players, event_at(self.right, number), beside);
        }
        Ok(())
    }

    /// Appends the line that is missing after the last event line.
    #[tactic(auto, using(crate::proofs::Places::as_many))]
    fn push_after(&self, out: &mut Vec<u8>, line: &[u8], number: usize) -> Result<(), AllocError>
        requires { number < length self.now.lines.now }
        ensures { OnOk result (out.new.items ≡ out.old.items ++ text_of_lines (after_last self.now.change.now self.now.players.now self.now.right.now line.now number (length (texts self.now.lines.now)))) }
    {
        if number + 1 == self.lines.len() {
            return self.push_missing(out, line, number + 1);
        }
        Ok(())
    }

    /// Appends the lines that replace an event line.
    #[tactic(auto, using(crate::proofs::Rounds::three_parts))]
    fn push_event(&self, out: &mut Vec<u8>, line: &[u8], number: usize) -> Result<(), AllocError>
        requires { number < length self.now.lines.now }
        ensures { OnOk result (out.new.items ≡ out.old.items ++ text_of_lines (for_event self.now.change.now self.now.players.now (texts self.now.lines.now) self.now.right.now line.now number)) }
    {
        self.push_missing(out, line, number)?;
        self.push_in_place(out, line, number)?;
        self.push_after(out, line, number)
    }

    /// Appends what replaces a line before which there are `number` event lines; returns how many there are after it.
    fn push_next(&self, out: &mut Vec<u8>, line: &[u8], number: usize) -> Result<usize, AllocError>
        requires { is_event_line line.now ≡ true → number < length self.now.lines.now }
        ensures next { IfOk result (λ next. next ≡ number_after line.now number) }
        ensures done { OnOk result (out.new.items ≡ out.old.items ++ text_of_lines (for_line self.now.change.now self.now.players.now (texts self.now.lines.now) self.now.right.now line.now number)) }
    {
        if is_event_line(line) {
            self.push_event(out, line, number)?;
            return Ok(number + 1);
        }
        out.extend_from_slice(line)?;
        out.push(b'\n')?;
        Ok(number)
    }

    /// Appends the lines of a text with the change, each ended by an LF.
    #[tactic(auto, using(crate::proofs::Rounds::one_line_more, crate::proofs::Rounds::last_line, crate::proofs::Rounds::fewer_remaining, crate::proofs::Rounds::one_remaining))]
    pub(crate) fn push_lines(&self, out: &mut Vec<u8>, text: &[u8]) -> Result<(), AllocError>
        requires { length (filter is_event_line (raw_lines text.now)) ≡ length self.now.lines.now }
        ensures { OnOk result (out.new.items ≡ out.old.items ++ text_of_lines (repaired_lines self.now.change.now self.now.players.now (texts self.now.lines.now) self.now.right.now 0 (raw_lines text.now))) }
    {
        let mut number = 0;
        let mut cut = cut_raw_line(text);
        while let Some(after) = cut.after {
            number = self.push_next(out, cut.line, number)?;
            cut = cut_raw_line(after);
        }
        self.push_next(out, cut.line, number)?;
        Ok(())
    }
}
