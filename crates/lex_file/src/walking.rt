//! Steps over any lexicon.
ghost use Rattle.std.specs.Prelude.{◌≡◌, ℕ, List, ◌∷◌, false, IfSome, IfNone};
ghost use Rattle.lex_file.specs.Walking.{strings, IsOpen};

use crate::lexicons::{PathLex, Step};

/// One more label after a step: what follows it, or None if no string continues with it. The step's node must be one that this
/// lexicon gave.
pub fn advance<L: PathLex>(lex: &L, at: Step<L::Node>, label: u8) -> Option<Step<L::Node>>
    requires { IsOpen (L.is_node lex.now) at.next }
    ensures none { IfNone result ((t : List ℕ) → strings (L.tail lex.now) at (label ∷ t) ≡ false) }
    ensures some { IfSome result (λ s. (t : List ℕ) → strings (L.tail lex.now) at (label ∷ t) ≡ strings (L.tail lex.now) s t) }
    ensures open { IfSome result (λ s. IsOpen (L.is_node lex.now) s.next) }
{
    match at.next {
        None => None,
        Some(node) => lex.step(node, label),
    }
}
