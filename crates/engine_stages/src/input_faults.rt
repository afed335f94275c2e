//! What is wrong with an input.
ghost use Rattle.std.specs.Prelude.{◌≡◌, IfOk};
ghost use Rattle.engine_stages.specs.InputFaults.{input_verdict, input_line};

use crate::lexicons::LexiconFault;
use crate::reports::{
    bad_file_line, bad_line_line, bad_list_line, bad_rack_line, bad_record_line, bad_rules_line,
    too_many_arcs_line,
};
use crate::verdicts::Verdict;
use gcg_read::ReadFault;
use lex_list::ListFault;
use ref_tiles::RulesFault;
use std::alloc::{AllocError, Global};

/// What is wrong with an input, or with what was requested of one.
#[derive(Debug, Drop)]
pub enum InputFault {
    /// The word list has this as its first fault.
    Words(ListFault),
    /// The lexicon has this as its first fault, or is not that of the word list.
    Lexicon(LexiconFault),
    /// The lexicon to be made would have more arcs, or words, than its format can number.
    TooManyArcs,
    /// The rules text has this as its first fault.
    Rules(RulesFault),
    /// The record has this as its first fault.
    Game(ReadFault),
    /// The rack is not 1 to 7 of A to Z and `?`.
    Rack,
    /// The record has no event on the given line or after it.
    Line,
}

/// The verdict that an input is bad.
pub fn input_verdict(fault: &InputFault) -> Verdict
    ensures { result ≡ input_verdict fault.now }
{
    match fault {
        InputFault::Words(_) => Verdict::BadList,
        InputFault::Lexicon(_) | InputFault::TooManyArcs => Verdict::BadFile,
        InputFault::Rules(_) => Verdict::BadRules,
        InputFault::Game(_) => Verdict::BadRecord,
        InputFault::Rack => Verdict::BadRack,
        InputFault::Line => Verdict::BadLine,
    }
}

/// The line that says what is wrong with an input.
pub fn input_line(alloc: Global, fault: &InputFault) -> Result<Vec<u8>, AllocError>
    ensures { IfOk result (λ text. text.items ≡ input_line fault.now) }
{
    match fault {
        InputFault::Words(first) => bad_list_line(alloc, first),
        InputFault::Lexicon(first) => bad_file_line(alloc, first),
        InputFault::TooManyArcs => too_many_arcs_line(alloc),
        InputFault::Rules(first) => bad_rules_line(alloc, first),
        InputFault::Game(first) => bad_record_line(alloc, first),
        InputFault::Rack => bad_rack_line(alloc),
        InputFault::Line => bad_line_line(alloc),
    }
}
