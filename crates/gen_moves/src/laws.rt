//! Laws of the moves of the lines of a board. Each function does nothing: its contract is the law.
ghost use Rattle.gen_moves.specs.Laws.{MovesAreCandidates, CandidatesAreMoves, AllAreGiven};

/// The moves of a line of the board are the candidates that lie along it, as in Gordon's method: entries are a move exactly when
/// the tiles that they put down are a legal play of listed words from the rack, in one run along the line. So what the lines of
/// both directions give, each play in the direction in which it is written, is every candidate, once (Steven Gordon, A Faster
/// Scrabble Move Generation Algorithm, 1994).
pub fn law_of_moves()
    ensures moves { MovesAreCandidates }
    ensures candidates { CandidatesAreMoves }
    ensures all { AllAreGiven }
{}
