//! Laws about alignments and merged records. Each function does nothing: its contract is the law.
ghost use Rattle.compare_alignments.specs.Laws.{AreOfSheets, IsItself};

/// Each choice makes that sheet from a sheet and itself.
#[tactic(auto, using(crate::proofs::Merged::own_record))]
pub fn law_of_itself()
    ensures { IsItself }
{}

/// Each event of a record made from two sheets is an event of one of them.
#[tactic(auto, using(crate::proofs::Made::all_made))]
pub fn law_of_merging()
    ensures { AreOfSheets }
{}
