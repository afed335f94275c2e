//! A law about the numbers of drafts. The function does nothing: its contract is the law.
ghost use Rattle.draft_numbers.specs.Laws.{WholeIsSheet};

/// A record is the draft in which nothing is missing: the same numbers are wrong.
#[tactic(auto, using(crate::proofs::Whole::whole_is_sheet))]
pub fn law_of_whole_drafts()
    ensures { WholeIsSheet }
{}
