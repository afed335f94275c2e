//! The best play that a rack allows.
ghost use Rattle.std.specs.Prelude.{◌≡◌, option_map};
ghost use Rattle.lex_check.specs.Pairs.{list_in};
ghost use Rattle.ref_play.specs.Best.{IsAnnotation};
ghost use Rattle.gen_cross.specs.Values.{IsRight};
ghost use Rattle.gen_sinks.specs.Sinks.{seen_pair};

use crate::searching::best_plays;
use gen_cross::Cross;
use gen_sinks::Best;
use lex_check::Checked;
use ref_board::Board;
use ref_play::Play;
use ref_tiles::{Counts, Rules};

/// The best play that a rack allows on a board by a list of words and its lexicon, with its score; none if there is no
/// play.
///
/// It has the greatest score, and of the plays with that score it is the first by its notation: across before down, then
/// by the first square, row by row, and then by the bytes of the text. The cross-sets are those of the board, which is not
/// changed. It allocates nothing.
pub fn annotate(
    rules: &Rules,
    pair: &Checked<'_>,
    board: &mut Board,
    rack: &Counts,
    cross: &Cross,
) -> Option<(Play, i32)>
    requires { IsRight rules.now (list_in pair.now) board.old cross.now }
    ensures annotation { IsAnnotation rules.now (list_in pair.now) board.old rack.now (option_map seen_pair result) }
    ensures board { board.new ≡ board.old }
{
    let best: Best = best_plays(rules, pair, board, rack, cross);
    match best.items().first() {
        Some((play, score)) => Some((play.copy(), *score)),
        None => None,
    }
}
