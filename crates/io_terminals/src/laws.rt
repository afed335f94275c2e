//! The law of what is shown on a terminal. The function does nothing: its contract is the law.
ghost use Rattle.io_terminals.specs.Showing.{NoneIsControl};

/// Of any bytes, those that are shown have no control character but the tab and the line feed.
#[tactic(auto, using(crate::proofs::NoControl::none_is_control))]
pub fn law_of_shown()
    ensures { NoneIsControl }
{}
