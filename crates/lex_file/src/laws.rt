//! Laws of the definitions that the contracts of files cite. The functions do nothing: their contracts are the laws.
ghost use Rattle.lex_file.specs.laws.{LanguageIsSpelt, TailsAreSpelt, NodesHoldArcs, TargetsEndBefore};

/// The language of a compiled lexicon is the set of the strings of labels for which there are arcs with these labels, the first in
/// the root's node, each next one in the node that the arc before targets, the last accepting. The same holds for the tails of each
/// of its nodes. The contracts of [`crate::LexFile`] define both by a recursion on the string.
pub fn law_of_language()
    ensures language { LanguageIsSpelt }
    ensures tails { TailsAreSpelt }
{}

/// What the checks of an arc say about nodes: an arc's own node, whose first arc they keep, has the arc; and a target passes
/// exactly when it is none, or the first arc of a node that ends before the arc's own node begins.
pub fn law_of_nodes()
    ensures own { NodesHoldArcs }
    ensures targets { TargetsEndBefore }
{}
