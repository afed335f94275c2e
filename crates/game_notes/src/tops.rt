//! The ten best plays that a rack allows.
ghost use Rattle.std.specs.Prelude.{◌≡◌, Some};
ghost use Rattle.lex_check.specs.Pairs.{list_in};
ghost use Rattle.game_notes.specs.Keeping.{AreFirstPlays};
ghost use Rattle.game_notes.specs.Tops.{AreTop};

use crate::crossing::cross_sets;
use crate::searching::best_plays;
use gen_sinks::{Sink, Top};
use lex_check::Checked;
use ref_board::Board;
use ref_tiles::{Counts, Rules};

/// The best N plays that a rack allows on a board, by the words of a list and their lexicon, best first, as [`top`] gives ten.
/// There are fewer if the rack allows fewer plays.
pub fn top_many<const N: usize>(
    rules: &Rules,
    pair: &Checked<'_>,
    board: &Board,
    rack: &Counts,
) -> Top<N>
    ensures made_for { ⟦<Top<N> as Sink>⟧.made_for result ≡ Some board.now }
    ensures first { AreFirstPlays N rules.now (list_in pair.now) board.now rack.now (⟦<Top<N> as Sink>⟧.items result) }
{
    let mut held = *board;
    let cross = cross_sets(rules, pair, board);
    best_plays(rules, pair, &mut held, rack, &cross)
}

/// How many plays [`top`] gives.
pub const MANY: usize = 10;

/// The ten best plays that a rack allows on a board, by the words of a list and their lexicon, best first: by score, and
/// plays of equal score by their notations. There are fewer if the rack allows fewer plays.
pub fn top(rules: &Rules, pair: &Checked<'_>, board: &Board, rack: &Counts) -> Top<MANY>
    ensures { AreTop rules.now (list_in pair.now) board.now rack.now (⟦<Top<10> as Sink>⟧.items result) }
{
    top_many(rules, pair, board, rack)
}
