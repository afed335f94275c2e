//! Laws of the definitions that the contract of a correction cites. The function does nothing: its contract is the law.
ghost use Rattle.game_corrections.specs.Laws.{OneCorrection, OwnCorrection};

/// No sheet has two corrections: for the same events, with the scores of challenges and penalties as they are written, the rules
/// allow at most one list of scores and totals. And they allow each event of a sheet exactly when it is its own correction.
#[tactic(auto, using(crate::proofs::Fronts::one_correction, crate::proofs::Fronts::own_correction))]
pub fn law_of_corrections()
    ensures one { OneCorrection }
    ensures own { OwnCorrection }
{}
