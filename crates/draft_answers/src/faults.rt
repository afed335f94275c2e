//! The fault of a text that is no draft.
ghost use Rattle.std.specs.Prelude.{◌≡◌};
ghost use Rattle.draft_answers.specs.Faults.{is_of_fields, amiss_at, reported_fault};

use explain_clues::line_of;
use gcg_drafts::{Amiss, amiss_on};
use gcg_read::{ReadFault, Why};

/// The first fault of a draft.
#[derive(Clone, Copy)]
pub struct DraftFault {
    /// The line and what is wrong there. It is `Fields` if the line lacks a field or has too many.
    pub fault: ReadFault,
    /// Which field the line lacks, or that it has too many, if that is so.
    pub amiss: Option<Amiss>,
}

/// Whether a fault is one of the fields of a line.
fn is_of_fields(why: Why) -> bool
    ensures { result ≡ is_of_fields why }
{
    match why {
        Why::Fields | Why::Rack | Why::Position | Why::Word | Why::Code | Why::Number => true,
        Why::TooLong | Why::TooManyEvents | Why::NoColon | Why::ThirdPlayer | Why::NoMemory =>
            false,
    }
}

/// What is amiss with the line of a fault.
fn amiss_at(text: &[u8], fault: &ReadFault) -> Option<Amiss>
    ensures { result ≡ amiss_at text.now fault.now }
{
    if !is_of_fields(fault.why) {
        return None;
    }
    match line_of(text, fault.line) {
        None => None,
        Some(line) => amiss_on(line),
    }
}

/// The fault of a draft, by that of the record that it would be.
pub(crate) fn reported_fault(text: &[u8], fault: ReadFault) -> DraftFault
    ensures { result ≡ reported_fault text.now fault }
{
    match amiss_at(text, &fault) {
        None => DraftFault { fault, amiss: None },
        Some(amiss) => DraftFault {
            fault: ReadFault {
                line: fault.line,
                why: Why::Fields,
            },
            amiss: Some(amiss),
        },
    }
}
