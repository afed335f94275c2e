//! Laws about the changes of a record. Each function does nothing: its contract is the law.
ghost use Rattle.repair_slips.specs.Laws.{SlipsAreByBoard, CommonestAreTried, ShiftsAreByOne, LaidTextsLie};

/// What may be wrong at a place depends only on the board there, on the player who is out and on whether the game is complete.
#[tactic(auto, using(crate::proofs::Boards::by_board))]
pub fn law_of_slips()
    ensures { SlipsAreByBoard }
{}

/// Each record that differs from the sheet in one letter of one play, in one square's shift of one play, in one line that is left out or in
/// two neighbouring lines that are exchanged is the sheet with one of its changes.
pub fn law_of_commonest()
    ensures { CommonestAreTried }
{}

/// What is listed as a shift of a play by one square is one, and nothing else of the record differs.
pub fn law_of_shifts()
    ensures { ShiftsAreByOne }
{}

/// The text of tiles that are laid over a line has its dots on the squares that have a tile and its tiles on free ones, and the
/// square after it has no tile.
pub fn law_of_layings()
    ensures { LaidTextsLie }
{}
