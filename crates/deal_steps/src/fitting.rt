//! Whether racks fit the steps of a game: before each step, and from each step to the next.
ghost use Rattle.std.specs.Prelude.{◌≡◌, ◌+◌, ◌<◌, ◌≤◌, ◌↔◌, ℕ, IsTrue, slice_index};
ghost use Rattle.deal_steps.specs.Steps.{used_by};
ghost use Rattle.deal_steps.specs.Fitting.{rack_of, with_rack, in_bag, IsWithinSet, AddsUp, IsThrownBy, HasTurn, AllowsAct, FitsAt, IsRefilled, IsLess, TurnsTo, ActsTo, Follows, FollowsTo, Fits};

use crate::deals::{Held, Racks};
use crate::piles::without;
use crate::steps::{Act, Motion, Step};
use gcg_read::Seat;
use ref_tiles::{Counts, KINDS, Rules};

impl Racks {
    /// The rack of a player.
    pub fn of(&self, seat: Seat) -> &Counts
        ensures { result.now ≡ rack_of self.now seat }
    {
        match seat {
            Seat::First => &self.first,
            Seat::Second => &self.second,
        }
    }

    /// The racks with another rack for a player.
    pub fn with_rack(&self, seat: Seat, rack: Counts) -> Racks
        ensures { result ≡ with_rack self.now seat rack }
    {
        match seat {
            Seat::First => Racks {
                first: rack,
                second: self.second,
            },
            Seat::Second => Racks {
                first: self.first,
                second: rack,
            },
        }
    }
}

/// Whether the game has the tiles on the board and on both racks.
fn are_in_set(rules: &Rules, board: &Counts, racks: &Racks) -> bool
    ensures { IsTrue result ↔ IsWithinSet rules.now board.now racks.now }
{
    let all = rules.counts.numbers();
    let laid = board.numbers();
    let first = racks.first.numbers();
    let second = racks.second.numbers();
    for kind in 0..KINDS {
        if laid[kind] as usize + first[kind] as usize + second[kind] as usize > all[kind] as usize {
            return false;
        }
    }
    true
}

/// Whether four parts make up a whole.
fn make_up(whole: usize, board: usize, first: usize, second: usize, bag: usize) -> bool
    ensures { IsTrue result ↔ (whole ≡ board + first + second + bag) }
{
    board <= whole
        && first <= whole - board
        && second <= whole - board - first
        && bag == whole - board - first - second
}

/// Whether the tiles add up to those of the game, with the sizes of the step.
fn adds_up(rules: &Rules, step: &Step, racks: &Racks) -> bool
    ensures { IsTrue result ↔ AddsUp rules.now step.now racks.now }
{
    let whole = rules.counts.total();
    let board = step.board.total();
    let first = racks.first.total();
    let second = racks.second.total();
    first == step.first
        && second == step.second
        && make_up(whole, board, first, second, step.bag)
        && are_in_set(rules, &step.board, racks)
}

/// The tiles that a turn uses, if they are known.
pub fn used_by(motion: &Motion) -> Counts
    ensures { result ≡ used_by motion.now }
{
    match motion {
        Motion::Lays { used, .. } => *used,
        Motion::Tries(used) => *used,
        Motion::Throws(tiles) => *tiles,
        Motion::Keeps | Motion::ThrowsUnknown(_) => Counts::new(),
    }
}

/// Whether these are the tiles that a turn throws.
fn is_thrown_by(motion: &Motion, thrown: &Counts) -> bool
    ensures { IsTrue result ↔ IsThrownBy motion.now thrown.now }
{
    match motion {
        Motion::Throws(tiles) => thrown == tiles,
        Motion::ThrowsUnknown(number) => thrown.total() == *number,
        Motion::Keeps | Motion::Lays { .. } | Motion::Tries(_) => *thrown == Counts::new(),
    }
}

/// Whether a rack has what a turn shows, uses and throws.
fn has_turn(shown: &Counts, motion: &Motion, thrown: &Counts, rack: &Counts) -> bool
    ensures { IsTrue result ↔ HasTurn shown.now motion.now thrown.now rack.now }
{
    let used = used_by(motion);
    shown.fits(rack) && used.fits(rack) && thrown.fits(rack) && is_thrown_by(motion, thrown)
}

/// Whether the racks allow an act.
fn allows_act(player: Seat, act: &Act, held: &Held) -> bool
    ensures { IsTrue result ↔ AllowsAct player act.now held.now }
{
    match act {
        Act::Turns { shown, motion } => {
            has_turn(shown, motion, &held.thrown, held.racks.of(player))
        }
        Act::Ends { holder, tiles } => {
            held.thrown == Counts::new() && held.racks.of(*holder) == tiles
        }
        Act::TakesBack(_) | Act::Rests => held.thrown == Counts::new(),
    }
}

/// Whether the racks fit what is known before a step.
pub fn fits_at(rules: &Rules, step: &Step, held: &Held) -> bool
    ensures { IsTrue result ↔ FitsAt rules.now step.now held.now }
{
    adds_up(rules, step, &held.racks) && allows_act(step.player, &step.act, held)
}

/// The tiles in the bag: all that are neither on the board nor on a rack.
fn tiles_in_bag(rules: &Rules, step: &Step, racks: &Racks) -> Counts
    ensures { result ≡ in_bag rules.now step.now racks.now }
{
    let unlaid = without(&rules.counts, &step.board);
    let others = without(&unlaid, &racks.first);
    without(&others, &racks.second)
}

/// Whether tiles leave a rack, and the given number of tiles come to it from the bag.
fn is_refilled(bag: &Counts, number: usize, off: &Counts, rack: &Counts, new: &Counts) -> bool
    ensures { IsTrue result ↔ IsRefilled bag.now number off.now rack.now new.now }
{
    let before = rack.total();
    let after = new.total();
    are_drawn(before, off.total(), number, after) && come_from_bag(bag, off, rack, new)
}

/// Whether this number of tiles is left if some leave and others are drawn.
fn are_drawn(before: usize, off: usize, drawn: usize, after: usize) -> bool
    ensures { IsTrue result ↔ (after + off ≡ before + drawn) }
{
    if off <= before {
        after >= before - off && after - (before - off) == drawn
    } else {
        drawn >= off - before && drawn - (off - before) == after
    }
}

/// Whether tiles leave a rack, and tiles come to it from the bag.
fn come_from_bag(bag: &Counts, off: &Counts, rack: &Counts, new: &Counts) -> bool
    ensures { IsTrue result ↔ ((k : ℕ) → k < 27 → (slice_index rack.now k ≤ slice_index new.now k + slice_index off.now k)
        × (slice_index new.now k + slice_index off.now k ≤ slice_index rack.now k + slice_index bag.now k)) }
{
    let there = bag.numbers();
    let gone = off.numbers();
    let before = rack.numbers();
    let after = new.numbers();
    for kind in 0..KINDS {
        let had = before[kind] as usize;
        let has = after[kind] as usize + gone[kind] as usize;
        if has < had || has > had + there[kind] as usize {
            return false;
        }
    }
    true
}

/// Whether these tiles left a rack, and no others.
fn is_less(off: &Counts, rack: &Counts, new: &Counts) -> bool
    ensures { IsTrue result ↔ IsLess off.now rack.now new.now }
{
    let gone = off.numbers();
    let before = rack.numbers();
    let after = new.numbers();
    for kind in 0..KINDS {
        if after[kind] as usize + gone[kind] as usize != before[kind] as usize {
            return false;
        }
    }
    true
}

/// Whether a turn turns a rack into the new rack.
fn turns_to(bag: &Counts, motion: &Motion, thrown: &Counts, rack: &Counts, new: &Counts) -> bool
    ensures { IsTrue result ↔ TurnsTo bag.now motion.now thrown.now rack.now new.now }
{
    match motion {
        Motion::Keeps => new == rack,
        Motion::Lays { used, drawn } => is_refilled(bag, *drawn, used, rack, new),
        Motion::Tries(used) => is_less(used, rack, new),
        Motion::Throws(_) | Motion::ThrowsUnknown(_) => {
            is_refilled(bag, thrown.total(), thrown, rack, new)
        }
    }
}

/// Whether an act turns a rack into the new rack.
fn acts_to(bag: &Counts, act: &Act, thrown: &Counts, rack: &Counts, new: &Counts) -> bool
    ensures { IsTrue result ↔ ActsTo bag.now act.now thrown.now rack.now new.now }
{
    match act {
        Act::Turns { motion, .. } => turns_to(bag, motion, thrown, rack, new),
        Act::TakesBack(used) => is_less(used, new, rack),
        Act::Ends { .. } | Act::Rests => new == rack,
    }
}

/// Whether a step turns the racks before it into those before the next.
pub fn follows(rules: &Rules, step: &Step, held: &Held, next: &Racks) -> bool
    ensures { IsTrue result ↔ Follows rules.now step.now held.now next.now }
{
    let player = step.player;
    let other = player.other();
    let bag = tiles_in_bag(rules, step, &held.racks);
    acts_to(
        &bag,
        &step.act,
        &held.thrown,
        held.racks.of(player),
        next.of(player),
    ) && next.of(other) == held.racks.of(other)
}

/// Whether the racks before the next step follow; after the last step there are none.
pub fn follows_to(rules: &Rules, step: &Step, held: &Held, rest: &[Held]) -> bool
    ensures { IsTrue result ↔ FollowsTo rules.now step.now held.now rest.now }
{
    match rest.first() {
        None => true,
        Some(next) => follows(rules, step, held, &next.racks),
    }
}

/// Whether racks fit the steps of a game: one by one, and each to the next.
pub fn fits(rules: &Rules, steps: &[Step], deal: &[Held]) -> bool
    ensures { IsTrue result ↔ Fits rules.now steps.now deal.now }
{
    if steps.len() != deal.len() {
        return false;
    }
    for place in 0..steps.len() {
        let (_, rest) = deal.split_at(place + 1);
        if !fits_at(rules, &steps[place], &deal[place]) {
            return false;
        }
        if !follows_to(rules, &steps[place], &deal[place], rest) {
            return false;
        }
    }
    true
}
