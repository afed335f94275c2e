//! Which tiles a player draws or throws at first: what the player's lines to come ask for, and then those of which there are most.
use crate::moves::Move;
use crate::piles::{Pile, minus, most_of, sum_of};
use ref_tiles::KINDS;

/// A player who takes tiles.
#[derive(Drop)]
struct Taker {
    /// What the player has.
    have: Pile,
    /// The tiles that can be taken.
    there: Pile,
    /// What was taken.
    taken: Pile,
    /// The number of tiles still to be taken.
    remaining: i32,
}

impl Taker {
    /// A player who has tiles and takes a number of others.
    fn new(have: &Pile, there: &Pile, remaining: i32) -> Taker {
        Taker {
            have: *have,
            there: *there,
            taken: [0; KINDS],
            remaining,
        }
    }

    /// Takes tiles of a kind: as many as are wanted, available, and still to be taken.
    fn take(&mut self, kind: usize, wanted: i32) {
        if kind < KINDS {
            let number = wanted.min(self.there[kind]).min(self.remaining).max(0);
            self.there[kind] = self.there[kind].wrapping_sub(number);
            self.taken[kind] = self.taken[kind].wrapping_add(number);
            self.remaining = self.remaining.wrapping_sub(number);
        }
    }

    /// Takes what is needed and the player does not have; it counts as held from now on, whether it could be taken or not.
    fn take_need(&mut self, need: &Pile) {
        for kind in 0..KINDS {
            let lack = need[kind].wrapping_sub(self.have[kind]);
            if lack > 0 {
                self.take(kind, lack);
                self.have[kind] = need[kind];
            }
        }
    }

    /// Takes what the player's moves from a place on need, up to the next throw of unknown tiles.
    fn take_wanted(&mut self, moves: &[Move], first: usize) {
        let mut place = first;
        for _ in 0..moves.len() {
            if self.remaining <= 0 || place >= moves.len() {
                return;
            }
            let turn = &moves[place];
            self.take_need(&turn.need);
            if turn.throws > 0 {
                return;
            }
            self.have = minus(&self.have, &turn.leave);
            place = turn.next;
        }
    }

    /// Takes the rest, each time from the kind of which there are most.
    fn take_most(&mut self) {
        for _ in 0..self.remaining {
            let kind = most_of(&self.there);
            if kind < KINDS {
                self.there[kind] = self.there[kind].wrapping_sub(1);
                self.taken[kind] = self.taken[kind].wrapping_add(1);
            }
        }
    }
}

/// The tiles that a player draws from the bag before the player's move at a place.
pub fn drawn(moves: &[Move], place: usize, rack: &Pile, bag: &Pile, number: i32) -> Pile {
    let mut taker = Taker::new(rack, bag, number);
    taker.take_wanted(moves, place);
    taker.take_most();
    taker.taken
}

/// The tiles that a player throws before the player's move at a place: none that are needed, if there are others.
pub fn thrown(moves: &[Move], place: usize, rack: &Pile, number: i32) -> Pile {
    let keeps = sum_of(rack).wrapping_sub(number);
    let mut keeper = Taker::new(&[0; KINDS], rack, keeps);
    keeper.take_wanted(moves, place);
    let mut thrower = Taker::new(&[0; KINDS], &keeper.there, number);
    thrower.take_most();
    thrower.taken
}
