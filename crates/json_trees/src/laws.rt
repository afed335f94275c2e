//! A law about the definitions that the contracts cite. The function does nothing: its contract is the law.
ghost use Rattle.json_trees.specs.Laws.{IsOneLine};

/// The text of a tree has no control character, so it is one line.
#[tactic(auto, using(crate::proofs::OneLine::one_line))]
pub fn law_of_texts()
    ensures { IsOneLine }
{}
