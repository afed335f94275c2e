//! The table of best plays that are known.
ghost use Rattle.std.specs.Prelude.{◌≡◌, ℕ, pos, List, IfOk, OnOk, IfSome};
ghost use Rattle.std.specs.Option.{option_copied};
ghost use Rattle.ref_tiles.specs.declared.rulebook.Rules.{Rules};
ghost use Rattle.game_bests.specs.Bests.{IsBestBy};
ghost use Rattle.game_known.specs.Known.{AreKnown};

use crate::placing::place_of;
use game_bests::TurnBest;
use ref_board::Board;
use ref_tiles::Counts;
use std::alloc::{AllocError, Global};

/// What is known for a board and a rack.
#[derive(Drop)]
struct KnownBest {
    board: Board,
    rack: Counts,
    /// What is said of the best play of a turn that gave nothing.
    best: TurnBest,
}

/// The best plays that are known: what was found for boards and racks, in a number of places that never changes. A new entry replaces the one that
/// was at its place.
#[derive(Drop)]
pub struct KnownBests {
    places: Vec<Option<KnownBest>>,
}

impl KnownBests {
    /// A table of `places` places, in which nothing is kept yet. It allocates its whole memory at once.
    ///
    /// # Errors
    ///
    /// Memory was refused.
    pub fn new(alloc: Global, places: usize) -> Result<KnownBests, AllocError>
        ensures { IfOk result (λ known. (rules : Rules) (list : List (List ℕ)) → AreKnown rules list known) }
    {
        let mut empty = Vec::with_capacity(alloc, places)?;
        for _ in 0..places {
            empty.push(None)?;
        }
        Ok(KnownBests { places: empty })
    }

    /// A table without a place, which allocates nothing and keeps nothing.
    pub fn none(alloc: Global) -> KnownBests
        ensures { (rules : Rules) (list : List (List ℕ)) → AreKnown rules list result }
    {
        KnownBests {
            places: Vec::new(alloc),
        }
    }

    /// What is known for a board and a rack.
    pub(crate) fn find(&self, board: &Board, rack: &Counts) -> Option<&TurnBest>
        ensures { (rules : Rules) (list : List (List ℕ)) → AreKnown rules list self.now
            → IfSome (option_copied result) (IsBestBy rules list board.now rack.now (pos 0)) }
    {
        let place = place_of(board, rack, self.places.len())?;
        let kept = self.places[place].as_ref()?;
        if kept.board == *board && kept.rack == *rack {
            Some(&kept.best)
        } else {
            None
        }
    }

    /// Keeps what was found for a board and a rack.
    pub(crate) fn keep(&mut self, board: &Board, rack: &Counts, best: TurnBest)
        ensures { (rules : Rules) (list : List (List ℕ)) → AreKnown rules list self.old
            → IsBestBy rules list board.now rack.now (pos 0) best → AreKnown rules list self.new }
    {
        let Some(place) = place_of(board, rack, self.places.len()) else {
            return;
        };
        self.places[place] = Some(KnownBest {
            board: *board,
            rack: *rack,
            best,
        });
    }
}
