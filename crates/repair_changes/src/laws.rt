//! Laws about changes. Each function does nothing: its contract is the law.
ghost use Rattle.repair_changes.specs.Laws.{FrontStays, NothingMore};

/// The events before a change stay as they are.
#[tactic(auto, using(crate::proofs::Fronts::front_stays))]
pub fn law_of_changes()
    ensures { FrontStays }
{}

/// A change makes no more of a record than its slip says: one line without that slip, one line fewer or more, or two lines exchanged.
#[tactic(auto, using(crate::proofs::Differing::nothing_more))]
pub fn law_of_differences()
    ensures { NothingMore }
{}
