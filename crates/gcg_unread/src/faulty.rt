//! The lines that begin with `>` and are no events.
ghost use Rattle.std.specs.Prelude.{◌≡◌, ◌++◌, ◌≤◌, IfOk, OnOk, length};
ghost use Rattle.gcg_read.specs.Records.{most_bytes};
ghost use Rattle.text_lines.specs.Lines.{lines_in};
ghost use Rattle.gcg_unread.specs.Faulty.{fault_alone, faults_listed, faulty_from, faulty_of};

use gcg_read::{MAX_BYTES, ReadFault, Why, read};
use std::alloc::{AllocError, Global};
use text_lines::{Lines, without_mark};

/// Why a line is not a line of a record whose only line it is, if it begins with `>`.
#[tactic(auto, using(crate::proofs::OneLine::faults_so), unfolding(crate::specs::Faulty::fault_alone))]
fn fault_alone(alloc: Global, line: &[u8]) -> Result<Option<Why>, AllocError>
    ensures { IfOk result (λ why. why ≡ fault_alone line.now) }
{
    if !line.starts_with(b">") {
        return Ok(None);
    }
    let fault = match read(alloc, line) {
        Ok(_) => return Ok(None),
        Err(fault) => fault,
    };
    if fault.why == Why::NoMemory {
        return Err(AllocError);
    }
    Ok(Some(fault.why))
}

/// Appends the fault of a line, if it has one.
fn push_fault(faults: &mut Vec<ReadFault>, line: u32, why: Option<Why>) -> Result<(), AllocError>
    ensures { OnOk result (faults.new.items ≡ faults.old.items ++ faults_listed line why) }
{
    match why {
        None => Ok(()),
        Some(why) => {
            faults.push(ReadFault { line, why })?;
            Ok(())
        }
    }
}

/// The lines of a text after its mark that begin with `>` and are no events.
#[tactic(auto, using(crate::proofs::Steps::faulty_steps), unfolding(crate::specs::Faulty::faulty_from))]
fn faulty_in(alloc: Global, text: &[u8]) -> Result<Vec<ReadFault>, AllocError>
    requires { length text.now ≤ most_bytes }
    ensures { IfOk result (λ faults. faults.items ≡ faulty_from 1 (lines_in text.now)) }
{
    let mut faults = Vec::new(alloc);
    let mut number = 0;
    for line in Lines::of(text) {
        number += 1;
        let why = fault_alone(alloc, line)?;
        push_fault(&mut faults, number, why)?;
    }
    Ok(faults)
}

/// The lines of a text that begin with `>` and are no events, in their order, each with its fault: whatever the other lines are, the text is not a
/// record. That a nickname is a third one is not the fault of a line alone. A text of more than 1 MiB has none.
///
/// # Errors
///
/// Memory was refused.
#[tactic(auto, unfolding(crate::specs::Faulty::faulty_of))]
pub fn faulty_lines(alloc: Global, text: &[u8]) -> Result<Vec<ReadFault>, AllocError>
    ensures { IfOk result (λ faults. faults.items ≡ faulty_of text.now) }
{
    if text.len() > MAX_BYTES {
        return Ok(Vec::new(alloc));
    }
    faulty_in(alloc, without_mark(text))
}
