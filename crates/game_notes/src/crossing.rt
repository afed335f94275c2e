//! The cross-sets of a board by the words of a pair.
ghost use Rattle.lex_check.specs.Pairs.{list_in};
ghost use Rattle.gen_cross.specs.Values.{IsRight};

use gen_cross::Cross;
use lex_check::Checked;
use ref_board::Board;
use ref_tiles::Rules;

/// The cross-sets of a board by the words of a pair, computed anew. It allocates nothing.
#[tactic(auto, using(crate::proofs::FirstPlays::file_is_right))]
pub fn cross_sets(rules: &Rules, pair: &Checked<'_>, board: &Board) -> Cross
    ensures { IsRight rules.now (list_in pair.now) board.now result }
{
    Cross::scratch(rules, board, pair.file())
}
