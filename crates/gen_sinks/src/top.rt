//! Sinks that keep the best plays: a number of them, or one.
ghost use Rattle.std.specs.Prelude.{◌≡◌, IsTrue, map};
ghost use Rattle.gen_sinks.specs.Sinks.{seen_pair};
ghost use Rattle.gen_sinks.specs.Ranks.{ranks_before, in_turn};
ghost use Rattle.gen_sinks.specs.Legals.{are_legal};

use crate::placing::{all_above, all_before_down, place_of, put_at};
use crate::sinks::{NoMemory, Sink};
use arrayvec::ArrayVec;
use ref_board::Board;
use ref_play::Play;

/// A sink that keeps the best N plays of one board, best first: those that score most, and among those that score the same, the
/// first by their notations.
#[derive(Drop)]
pub struct Top<const N: usize> {
    board: Board,
    kept: ArrayVec<(Play, i32), N>,
    ghost legal: { IsTrue (are_legal board kept.items) },
    ghost turn: { IsTrue (in_turn (ranks_before board) (map seen_pair kept.items)) },
}

/// A sink that keeps the best play of one board.
pub type Best = Top<1>;

impl<const N: usize> Top<N> {
    ghost use Rattle.std.specs.Prelude.{[], Some};

    /// A sink without plays, for the plays of this board.
    #[tactic(auto, unfolding(crate::specs::Legals::are_legal, crate::specs::Ranks::in_turn))]
    pub fn new(board: &Board) -> Top<N>
        ensures board { ⟦<Top<N> as Sink>⟧.made_for result ≡ Some board.now }
        ensures items { ⟦<Top<N> as Sink>⟧.items result ≡ [] }
    {
        Top {
            board: *board,
            kept: ArrayVec::new(),
        }
    }

    /// The plays with their scores, best first.
    pub fn items(&self) -> &[(Play, i32)]
        ensures { map seen_pair result.now ≡ ⟦<Top<N> as Sink>⟧.items self.now }
    {
        &self.kept
    }
}

impl<const N: usize> Sink for Top<N> {
    ghost use Rattle.std.specs.Prelude.{Some, false};
    ghost use Rattle.gen_sinks.specs.Ranks.{add_ranked};

    ghost made_for = { λ sink. Some sink.board };

    ghost grows = { false };

    ghost items = { λ sink. map seen_pair sink.kept.items };

    ghost add = { add_ranked N };

    fn skips(&self, bound: i32) -> bool {
        self.kept.is_full() && all_above(&self.kept, bound)
    }

    fn skips_down(&self, bound: i32) -> bool {
        self.board.law_of_squares();
        self.kept.is_full() && all_before_down(&self.board, &self.kept, bound)
    }

    fn take(&mut self, play: &Play, score: i32) -> Result<(), NoMemory> {
        self.board.law_of_squares();
        let place = place_of(&self.board, &self.kept, play, score);
        put_at(&mut self.kept, place, (play.copy(), score));
        Ok(())
    }
}
