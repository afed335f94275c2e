//! Where on a board a text can be played for a score.
ghost use Rattle.std.specs.Prelude.{◌≡◌, ◌++◌, ◌∷◌, [], if◌then◌else◌, IfOk, OnOk};
ghost use Rattle.explain_clues.specs.Spots.{scores_at, scoring_along, scoring_spots};

use game_turns::legal_play;
use gcg_read::Points;
use ref_board::{Board, Dir, SIDE, Square};
use ref_play::score;
use ref_tiles::{Rules, SQUARES, Symbol};
use std::alloc::{AllocError, Global};

/// Where a text begins, and in which direction it goes.
#[derive(Clone, Copy)]
pub struct Spot {
    /// The direction.
    pub dir: Dir,
    /// The first square.
    pub at: Square,
}

/// Whether a text is a legal play at a spot, with this score.
#[tactic(auto, unfolding(crate::specs::Spots::scores_at, game_turns::specs::Checks::text_score))]
fn scores_at(rules: &Rules, board: &Board, word: &[Symbol], wanted: Points, spot: &Spot) -> bool
    ensures { result ≡ scores_at rules.now board.now word.now wanted spot.now }
{
    match legal_play(board, spot.at, spot.dir, word) {
        Ok(play) => score(rules, board, &play) == wanted.value(),
        Err(_) => false,
    }
}

/// Adds a spot, if a text is a legal play there with this score.
fn push_spot(
    spots: &mut Vec<Spot>,
    rules: &Rules,
    board: &Board,
    word: &[Symbol],
    wanted: Points,
    spot: Spot,
) -> Result<(), AllocError>
    ensures { OnOk result (spots.new.items ≡ spots.old.items ++ (if scores_at rules.now board.now word.now wanted spot then spot ∷ [] else [])) }
{
    if scores_at(rules, board, word, wanted, &spot) {
        spots.push(spot)?;
    }
    Ok(())
}

/// Adds the spots of a direction at which a text is a legal play with this score.
fn push_along(
    spots: &mut Vec<Spot>,
    rules: &Rules,
    board: &Board,
    word: &[Symbol],
    wanted: Points,
    dir: Dir,
) -> Result<(), AllocError>
    ensures { OnOk result (spots.new.items ≡ spots.old.items ++ scoring_along rules.now board.now word.now wanted dir 225) }
{
    for number in 0..SQUARES {
        let at = Square::on_line(Dir::Across, number / SIDE, number % SIDE);
        push_spot(spots, rules, board, word, wanted, Spot { dir, at })?;
    }
    Ok(())
}

/// All spots of a board at which a text is a legal play with this score: across before down, and row by row.
///
/// It fails only if memory runs out.
pub fn scoring_spots(
    alloc: Global,
    rules: &Rules,
    board: &Board,
    word: &[Symbol],
    wanted: Points,
) -> Result<Vec<Spot>, AllocError>
    ensures { IfOk result (λ spots. spots.items ≡ scoring_spots rules.now board.now word.now wanted) }
{
    let mut spots = Vec::new(alloc);
    push_along(&mut spots, rules, board, word, wanted, Dir::Across)?;
    push_along(&mut spots, rules, board, word, wanted, Dir::Down)?;
    Ok(spots)
}
