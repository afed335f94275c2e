//! What each event line of a draft lacks.
ghost use Rattle.std.specs.Prelude.{◌≡◌, ◌++◌, IfOk, OnOk};
ghost use Rattle.std.specs.List.{after_first, position};
ghost use Rattle.text_lines.specs.Fields.{fields_of};
ghost use Rattle.gcg_read.specs.Cutting.{is_colon};
ghost use Rattle.gcg_drafts.specs.Drafts.{amiss_on};
ghost use Rattle.gcg_drafts.specs.Lacks.{lacks_in};
ghost use Rattle.gcg_drafts.specs.Texts.{missing_by, missing_on, missing_in};

use crate::amiss::Amiss;
use crate::lacks::lacks_in;
use crate::missing::Missing;
use gcg_numbers::is_event_line;
use std::alloc::{AllocError, Global};
use text_lines::{Lines, without_mark};

/// The place of the first colon of a line.
fn find_colon(line: &[u8]) -> Option<usize>
    ensures { result ≡ position is_colon line.now }
{
    line.iter().position(|byte| *byte == b':')
}

/// The text after the first colon of a line; nothing if it has none.
fn after_colon(line: &[u8]) -> &[u8]
    ensures { result.now ≡ after_first is_colon line.now }
{
    match find_colon(line) {
        Some(colon) => &line[colon + 1..],
        None => &[],
    }
}

/// What an event line lacks: nothing, if its fields are not those of an event.
fn missing_of(line: &[u8]) -> Missing
    ensures { result ≡ missing_by (lacks_in (fields_of (after_first is_colon line.now))) }
{
    match lacks_in(after_colon(line)) {
        Ok(missing) => missing,
        Err(_) => Missing::Nothing,
    }
}

/// What is amiss with the fields of an event line, given without its end: which field it lacks, or that it has too many.
#[tactic(auto, unfolding(crate::specs::Drafts::amiss_on))]
pub fn amiss_on(line: &[u8]) -> Option<Amiss>
    ensures { result ≡ amiss_on line.now }
{
    match lacks_in(after_colon(line)) {
        Ok(_) => None,
        Err(amiss) => Some(amiss),
    }
}

/// Appends what a line lacks, if it is that of an event.
fn push_missing(out: &mut Vec<Missing>, line: &[u8]) -> Result<(), AllocError>
    ensures { OnOk result (out.new.items ≡ out.old.items ++ missing_on line.now) }
{
    if is_event_line(line) {
        out.push(missing_of(line))?;
    }
    Ok(())
}

/// What each event line of a draft lacks, in their order.
#[tactic(auto, using(crate::proofs::Steps::steps), unfolding(crate::specs::Texts::missing_in))]
pub fn missing_in(alloc: Global, text: &[u8]) -> Result<Vec<Missing>, AllocError>
    ensures { IfOk result (λ list. list.items ≡ missing_in text.now) }
{
    let mut lacks = Vec::new(alloc);
    for line in Lines::of(without_mark(text)) {
        push_missing(&mut lacks, line)?;
    }
    Ok(lacks)
}
