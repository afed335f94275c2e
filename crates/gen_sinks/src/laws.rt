//! Laws of the plays that are kept. The function does nothing: its contract is the law.
ghost use Rattle.gen_sinks.specs.Laws.{AddedAreFirst, OrderIsNoMatter, FirstAreOne, FirstIsBest};

/// If all candidates of a board are taken one after another, the first `n` of them in the order of greater score and then of
/// notation are left, for any `n`. The same plays are left in whatever order they come, even if others were kept before. What is
/// left depends only on the candidates, and if it is one play, it is the best play.
pub fn law_of_first()
    ensures first { AddedAreFirst }
    ensures order { OrderIsNoMatter }
    ensures one { FirstAreOne }
    ensures best { FirstIsBest }
{}
