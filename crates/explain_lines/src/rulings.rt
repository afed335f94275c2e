//! Whether the rules allow an event.

use explain_facts::RulingFact;
use explain_parts::say;
use std::alloc::AllocError;

/// Appends whether the rules allow an event.
pub fn push_ruling_fact(text: &mut Vec<u8>, fact: &RulingFact) -> Result<(), AllocError> {
    match fact {
        RulingFact::NotJudged { refused } =>
            say!(text; "The rules do not allow line ", *refused, ", so this line was not judged.\n"),
        RulingFact::Allowed => say!(text; "The rules allow this event.\n"),
    }
}
