//! A law of the definitions that the contract of scored words cites. The function does nothing: its contract is the law.
ghost use Rattle.explain_clues.specs.Laws.{SumsAddUp};

/// A word scores what its squares add, times the product of its word premiums; and a play scores what its words score, plus the bonus.
#[tactic(auto, using(crate::proofs::Sums::sums_add_up))]
pub fn law_of_sums()
    ensures { SumsAddUp }
{}
