//! The law of lines that are not read. The function does nothing: its contract is the law.
ghost use Rattle.gcg_unread.specs.Laws.{ArePassedOver};

/// The reader of records takes nothing from a line that is listed: with it a record is what it was without it.
#[tactic(auto, using(crate::proofs::PassedOver::passed_over))]
pub fn law_of_unread_lines()
    ensures { ArePassedOver }
{}
