//! How the game ends, by both sheets and by what is right.
ghost use Rattle.std.specs.Prelude.{◌≡◌};
ghost use Rattle.compare_repaired.specs.Repaired.{best_repair};
ghost use Rattle.compare_answers.specs.Ends.{IsEnd, IsEndBy};

use compare_choices::{Comparison, Results, Sheets, results_of};
use compare_repaired::RepairedChoices;
use gcg_read::Event;

/// How the game ends, by both sheets and by what is right.
#[derive(Clone, Copy)]
pub struct GameEnd {
    /// Whether the last racks are in.
    pub complete: bool,
    /// The last totals, and who is ahead.
    pub results: Results,
}

/// How the game of these right events ends.
fn end_of(sheets: &Sheets, right: &[Event], complete: bool) -> GameEnd
    ensures { IsEnd sheets.now right.now complete result }
{
    let results = results_of(sheets, right);
    GameEnd { complete, results }
}

/// How the game of the best choice ends, or of the best repair if no choice is known to make a game.
pub(crate) fn game_end(
    sheets: &Sheets,
    comparison: &Comparison,
    repaired: &RepairedChoices,
) -> Option<GameEnd>
    ensures { IsEndBy sheets.now comparison.now.find.best repaired.now.best (best_repair repaired.now) result }
{
    if let Some(best) = &comparison.find.best {
        return Some(end_of(sheets, best.right.as_slice(), best.complete));
    }
    let Some(best) = repaired.best else {
        return None;
    };
    match repaired.best_repair() {
        Some(repair) => Some(end_of(sheets, repair.right.as_slice(), best.complete)),
        None => None,
    }
}
