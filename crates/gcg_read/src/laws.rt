//! Laws about the meaning of a text. Each function does nothing: its contract is the law.
ghost use Rattle.gcg_read.specs.FirstFaults.{FaultIsFirst};
ghost use Rattle.gcg_read.specs.Laws.{LinesRise};

/// If a text that is not too long has no meaning, its fault is that of the first line that has one: the lines before it
/// are those of a record.
#[tactic(auto, using(crate::proofs::FirstFaults::fault_is_first))]
pub fn law_of_faults()
    ensures { FaultIsFirst }
{}

/// The events of a record are in the order of their lines, one event on a line: of two events the later one has the greater line number.
pub fn law_of_lines()
    ensures { LinesRise }
{}
