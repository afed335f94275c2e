//! The laws of the names of faults. The function does nothing: its contract states the laws.
ghost use Rattle.engine_faults.specs.Names.{IsReadBack, HasThatText};

/// The text of a name is read as that name, and a name that is read from a text has that text.
#[tactic(auto, using(crate::proofs::ReadBack::read_back, crate::proofs::ReadBack::that_text))]
pub fn law_of_names()
    ensures inverse { IsReadBack }
    ensures exact { HasThatText }
{}
