//! Laws of the definitions that the contracts of plays cite. Each function does nothing: its contract is the law.
ghost use Rattle.ref_play.specs.Laws.{RunsAreThoseMet, RunsAreDistinct, FaultlessIsLegal, OneTileFitsBoth, OneTileHasOneFault, WordsFitBoth, MoreTilesFitOne, TakingBackRestores, WrittenAlongItsRun, NotationsReadBack, NotationsDiffer, NoneBeforeItself, BeforeIsTransitive, OneComesBefore, LegalIsSound, WordsAreOfLines, ScoreIsOfLines, BlanksCrossAlike};

/// The runs that a placement forms are the maximal stretches of two tiles or more, in a row or a column, that have
/// one of its tiles, each once.
pub fn law_of_runs()
    ensures met { RunsAreThoseMet }
    ensures distinct { RunsAreDistinct }
{}

/// A play has no fault exactly when it is legal by the WESPA rules: its tiles lie on empty squares of one row or
/// column with no empty square between them, they form a word of two letters, and they cover the centre of an empty
/// board or lie beside a tile of any other.
pub fn law_of_legality()
    ensures { FaultlessIsLegal }
{}

/// A play of one tile has no direction: it is the same play across and down, with the same fault and the same words.
/// A play of more tiles has one.
pub fn law_of_directions()
    ensures one_tile { OneTileFitsBoth }
    ensures same_fault { OneTileHasOneFault }
    ensures same_words { WordsFitBoth }
    ensures more_tiles { MoreTilesFitOne }
{}

/// Tiles that were put on empty squares and taken off again leave the board as it was.
pub fn law_of_undoing()
    ensures { TakingBackRestores }
{}

/// A legal placement has one notation: it lies in one run along the direction in which it is written, the text on that run has no
/// fault and names the placement, and no other placement has the same notation.
#[tactic(auto, using(crate::proofs::Naming::notation_differs))]
pub fn law_of_notations()
    ensures along { WrittenAlongItsRun }
    ensures read_back { NotationsReadBack }
    ensures report { NotationsDiffer }
{}

/// The order of plays by their notations is a strict total order on the legal placements of a board: none comes before itself, the
/// order is transitive, and of two different placements one comes before the other.
#[tactic(auto, using(crate::proofs::Ordering::irreflexive, crate::proofs::Ordering::transitive, crate::proofs::Ordering::one_first))]
pub fn law_of_before()
    ensures irreflexive { NoneBeforeItself }
    ensures transitive { BeforeIsTransitive }
    ensures one_first { OneComesBefore }
{}

/// A play is determined by its own line and the cross lines of its tiles. It is legal exactly when its tiles lie on empty squares,
/// in one whole stretch of their line, some run is formed, and an anchor is covered (Appel and Jacobson 1988, The World's Fastest
/// Scrabble Program). Its words are that of the stretch, if it has two tiles, and then the cross word of each new tile, which
/// depends only on the board and that tile; it does not matter whether the tile is a blank. Its score is that of the stretch, those
/// of the cross runs, and the bonus.
#[tactic(auto, using(crate::proofs::PlayLines::score_of_lines, crate::proofs::PlayLines::blanks_alike))]
pub fn law_of_lines()
    ensures sound { LegalIsSound }
    ensures words { WordsAreOfLines }
    ensures score { ScoreIsOfLines }
    ensures blanks { BlanksCrossAlike }
{}
