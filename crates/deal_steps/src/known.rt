//! What must be on the racks now, kept step by step. It finds the bounds with no number larger than a byte.
ghost use Rattle.std.specs.Prelude.{◌≡◌, ◌<◌, List, [], ◌∷◌, None, IfSome};
ghost use Rattle.deal_steps.specs.declared.steps.Step.{Step};
ghost use Rattle.deal_steps.specs.Bounds.{bound_at};
ghost use Rattle.deal_steps.specs.Knowing.{known_of, with_known, raised_by, IsKnown, short_of, excess_of, excess, shown_by, turned_by, moved_by, HasRoomFor, HasRoom};

use crate::faults::DealBound;
use crate::fitting::used_by;
use crate::piles::{greater, joined, without};
use crate::steps::{Act, Motion, Step};
use gcg_read::Seat;
use ref_tiles::{Counts, KINDS, Kind, Rules};

/// What the lines so far show about the racks.
#[derive(Clone, Copy)]
pub struct Known {
    /// Tiles that the first player must have now.
    pub first: Counts,
    /// Tiles that the second player must have now.
    pub second: Counts,
    /// The tiles of the plays that stand.
    pub laid: Counts,
}

impl Known {
    /// Nothing is known at the start of a game.
    pub fn new() -> Known
        ensures { IsKnown [] result }
    {
        Known {
            first: Counts::new(),
            second: Counts::new(),
            laid: Counts::new(),
        }
    }

    /// What a player must have now.
    pub fn of(&self, seat: Seat) -> &Counts
        ensures { result.now ≡ known_of self.now seat }
    {
        match seat {
            Seat::First => &self.first,
            Seat::Second => &self.second,
        }
    }

    /// Sets the tiles of a player.
    fn set(&mut self, seat: Seat, tiles: Counts)
        ensures { self.new ≡ with_known self.old seat tiles }
    {
        match seat {
            Seat::First => self.first = tiles,
            Seat::Second => self.second = tiles,
        }
    }

    /// Records that a player has these tiles.
    fn raise(&mut self, seat: Seat, tiles: &Counts)
        ensures { self.new ≡ raised_by seat tiles.now self.old }
    {
        let raised = greater(self.of(seat), tiles);
        self.set(seat, raised);
    }

    /// The first kind of which more is known than the game has.
    #[tactic(auto, using(crate::proofs::KnownLaws::first_found, crate::proofs::KnownLaws::no_short))]
    fn short_kind(&self, rules: &Rules) -> Option<usize>
        ensures first { result ≡ short_of rules.now self.now }
        ensures below { IfSome result (λ k. k < 27) }
    {
        let all = rules.counts.numbers();
        let laid = self.laid.numbers();
        let first = self.first.numbers();
        let second = self.second.numbers();
        for kind in 0..KINDS {
            let shown = laid[kind] as usize + first[kind] as usize + second[kind] as usize;
            if shown > all[kind] as usize {
                return Some(kind);
            }
        }
        None
    }

    /// The bound that what is known about a player exceeds at a step.
    #[tactic(auto, unfolding(crate::specs::Knowing::excess_of))]
    fn excess_of(&self, rules: &Rules, seat: Seat, step: &Step) -> Option<DealBound>
        ensures { result ≡ excess_of rules.now seat step.now self.now }
    {
        let line = step.line;
        if self.of(seat).total() > step.size_of(seat) {
            return Some(DealBound::RackTooBig { line });
        }
        match self.short_kind(rules) {
            None => None,
            Some(number) => Some(DealBound::TilesShort {
                line,
                kind: Kind::at(number),
            }),
        }
    }

    /// Records what the step shows.
    pub(crate) fn show(&mut self, step: &Step)
        ensures { self.new ≡ shown_by step.now.player step.now.act self.old }
    {
        match &step.act {
            Act::Turns { shown, motion } => {
                let used = used_by(motion);
                let tiles = greater(shown, &used);
                self.raise(step.player, &tiles);
            }
            Act::Ends { holder, tiles } => self.raise(*holder, tiles),
            Act::TakesBack(_) | Act::Rests => {}
        }
    }

    /// The bound that is exceeded at a step whose tiles are known.
    fn excess(&self, rules: &Rules, step: &Step) -> Option<DealBound>
        ensures { result ≡ excess rules.now step.now step.now.act self.now }
    {
        match &step.act {
            Act::Turns { .. } => self.excess_of(rules, step.player, step),
            Act::Ends { holder, .. } => self.excess_of(rules, *holder, step),
            Act::TakesBack(_) | Act::Rests => None,
        }
    }

    /// Makes a turn: its tiles leave the rack.
    fn turn(&mut self, seat: Seat, motion: &Motion)
        requires { HasRoomFor motion.now self.old.laid }
        ensures { self.new ≡ turned_by seat motion.now self.old }
    {
        match motion {
            Motion::Lays { used, .. } => {
                let rest = without(self.of(seat), used);
                self.laid = joined(&self.laid, used);
                self.set(seat, rest);
            }
            Motion::Throws(tiles) => {
                let rest = without(self.of(seat), tiles);
                self.set(seat, rest);
            }
            Motion::ThrowsUnknown(_) => self.set(seat, Counts::new()),
            Motion::Keeps | Motion::Tries(_) => {}
        }
    }

    /// Makes the step.
    fn settle(&mut self, step: &Step)
        requires { HasRoom step.now.act self.old.laid }
        ensures { self.new ≡ moved_by step.now.player step.now.act self.old }
    {
        if let Act::Turns { motion, .. } = &step.act {
            self.turn(step.player, motion);
        }
    }

    /// Takes a step: the bound that it exceeds, or what is known after it.
    pub fn take(&mut self, rules: &Rules, step: &Step) -> Option<DealBound>
        ensures reported { (past : List Step) → IsKnown past self.old → result ≡ bound_at rules.now step.now past }
        ensures known { (past : List Step) → IsKnown past self.old → result ≡ None → IsKnown (step.now ∷ past) self.new }
    {
        rules.counts.law_of_numbers();
        self.show(step);
        match self.excess(rules, step) {
            Some(fault) => Some(fault),
            None => {
                self.settle(step);
                None
            }
        }
    }
}
