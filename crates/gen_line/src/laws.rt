//! Laws of the definitions that the contracts of the walk cite. Each function does nothing: its contract is the law.
ghost use Rattle.gen_line.specs.Laws.{GivesTheMoves, GivesNoneTwice};

/// The walk over a line gives exactly the moves of the line, each once: these are the ways to put tiles of the rack on free places
/// that allow them, in one whole stretch that spells a listed word, one of them on an anchor.
pub fn law_of_line_moves()
    ensures moves { GivesTheMoves }
    ensures once { GivesNoneTwice }
{}
