//! What a line says of a fault.
ghost use Rattle.std.specs.Prelude.{◌≡◌, IfOk, option_map};
ghost use Rattle.std.specs.String.{string_bytes};
ghost use Rattle.std.specs.Cow.{cow_str_bytes};
ghost use Rattle.std.specs.List.{before_first};
ghost use Rattle.text_lines.specs.Fields.{is_blank};
ghost use Rattle.engine_stages.specs.Reports.{fault_text};
ghost use Rattle.archive_lines.specs.Faults.{line_in, line_of_fault, fault_in, name_in, expected_of, expected_in};

use engine_stages::{GameFault, fault_text};
use game_case::Finding;
use game_turns::RuleFault;
use gcg_read::ReadFault;
use std::alloc::{AllocError, Global};
use std::borrow::CowStr;
use text_lines::find_blank;

/// The line of the fault of a finding.
pub fn line_in(finding: Finding) -> Option<u32>
    ensures { result ≡ line_in finding }
{
    match finding {
        Finding::Illegal { line, .. } => Some(line),
        Finding::NoGame | Finding::Legal { .. } | Finding::Unsettled => None,
    }
}

/// The line of the fault of a record; none if it is on no line.
pub fn line_of_fault(fault: &ReadFault) -> Option<u32>
    ensures { result ≡ line_of_fault fault.now }
{
    if fault.line == 0 {
        None
    } else {
        Some(fault.line)
    }
}

/// Bytes of a report as text: they are ASCII.
fn text_from(bytes: Vec<u8>) -> Result<String, AllocError>
    ensures { IfOk result (λ text. string_bytes text ≡ bytes.items) }
{
    match String::from_utf8(bytes) {
        Ok(text) => Ok(text),
        Err(_) => Err(AllocError),
    }
}

/// The text of a fault, as a report has it.
fn text_of(alloc: Global, fault: &GameFault) -> Result<String, AllocError>
    ensures { IfOk result (λ text. string_bytes text ≡ fault_text fault.now) }
{
    text_from(fault_text(alloc, fault)?)
}

/// The fault of a finding, as a report has it.
pub fn fault_in(alloc: Global, finding: Finding) -> Result<Option<String>, AllocError>
    ensures { IfOk result (λ text. option_map string_bytes text ≡ fault_in finding) }
{
    match finding {
        Finding::Illegal { fault, .. } => Ok(Some(text_of(alloc, &fault)?)),
        Finding::NoGame | Finding::Legal { .. } | Finding::Unsettled => Ok(None),
    }
}

/// The part of a text before its first blank.
fn front_of(text: &[u8]) -> &[u8]
    ensures { result.now ≡ before_first is_blank text.now }
{
    match find_blank(text) {
        None => text,
        Some(at) => &text[..at],
    }
}

/// The name of a fault: its text before the first blank.
pub fn name_in(alloc: Global, fault: &Option<String>) -> Result<Option<String>, AllocError>
    ensures { IfOk result (λ name. option_map string_bytes name ≡ name_in (option_map string_bytes fault.now)) }
{
    let Some(text) = fault else {
        return Ok(None);
    };
    let front = Vec::from_slice(alloc, front_of(text.as_bytes()))?;
    Ok(Some(text_from(front)?))
}

/// A text that a line owns.
pub fn owned<'a>(text: Option<String>) -> Option<CowStr<'a, Global>>
    ensures { option_map cow_str_bytes result ≡ option_map string_bytes text }
{
    match text {
        None => None,
        Some(text) => Some(CowStr::Owned(text)),
    }
}

/// The number that a fault of a game expected.
fn expected_of(fault: GameFault) -> Option<i32>
    ensures { result ≡ expected_of fault }
{
    match fault {
        GameFault::Rule(RuleFault::WrongScore(expected))
        | GameFault::Rule(RuleFault::WrongTotal(expected)) => Some(expected),
        _ => None,
    }
}

/// The number that the fault of a finding expected.
pub fn expected_in(finding: Finding) -> Option<i32>
    ensures { result ≡ expected_in finding }
{
    match finding {
        Finding::Illegal { fault, .. } => expected_of(fault),
        Finding::NoGame | Finding::Legal { .. } | Finding::Unsettled => None,
    }
}
