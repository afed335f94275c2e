//! Laws of drafts that are filled. The function does nothing: its contract is the law.
ghost use Rattle.draft_answers.specs.Laws.{FindsWhatAuditFinds};

/// What is found of a draft that lacks nothing is what `audit` finds of it.
#[tactic(auto, using(crate::proofs::Whole::finds_what_audit_finds))]
pub fn law_of_filling()
    ensures { FindsWhatAuditFinds }
{}
