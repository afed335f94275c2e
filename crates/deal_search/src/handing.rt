//! The deal that the arcs of a net carry.
use crate::arcs::Arc;
use crate::moves::Move;
use crate::nets::{ARCS, Net};
use crate::piles::{Pile, counts_of, plus};
use deal_steps::{Act, Deal, Held, Racks, Step, without};
use ref_tiles::{Counts, KINDS};
use std::alloc::{AllocError, Global};

/// Where the arcs of a move are: what is drawn, what the rack keeps, and what it throws.
const DRAW: usize = 1;

const KEEP: usize = 3;

const THROW: usize = 4;

/// The tiles that take an arc of a move.
fn tiles_on(arcs: &[Arc], place: usize, which: usize) -> Pile {
    let index = place.saturating_mul(ARCS).saturating_add(which);
    match arcs.get(index) {
        Some(arc) => arc.tiles(),
        None => [0; KINDS],
    }
}

/// The rack of a player after a move: what it keeps plus what is drawn.
fn rack_after(arcs: &[Arc], place: usize) -> Counts {
    counts_of(&plus(&tiles_on(arcs, place, KEEP), &tiles_on(arcs, place, DRAW)))
}

/// The tiles that a move throws.
fn thrown_by(arcs: &[Arc], turn: &Move, place: usize) -> Counts {
    if turn.to_bag {
        counts_of(&turn.leave)
    } else {
        counts_of(&tiles_on(arcs, place, THROW))
    }
}

/// What the players hold at a step. If a play is taken back, its tiles are on the board and not on the rack.
fn racks_at(step: &Step, racks: &Racks) -> Racks {
    match &step.act {
        Act::TakesBack(used) => {
            let rest = without(racks.of(step.player), used);
            racks.with_rack(step.player, rest)
        }
        Act::Turns { .. } | Act::Ends { .. } | Act::Rests => *racks,
    }
}

/// The racks before the first step.
fn first_racks(net: &Net) -> Racks {
    let mut racks = Racks {
        first: Counts::new(),
        second: Counts::new(),
    };
    for place in 0..2 {
        if place < net.moves.len() {
            racks = racks.with_rack(net.moves[place].seat, rack_after(&net.arcs, place));
        }
    }
    racks
}

/// The deal of a net.
pub fn deal_of(alloc: Global, net: &Net, steps: &[Step]) -> Result<Deal, AllocError> {
    let mut held = Vec::new(alloc);
    let mut racks = first_racks(net);
    for (number, step) in steps.iter().enumerate() {
        let place = number.saturating_add(2);
        if place < net.moves.len() {
            let turn = &net.moves[place];
            let now = racks_at(step, &racks);
            let thrown = thrown_by(&net.arcs, turn, place);
            held.push(Held { racks: now, thrown })?;
            racks = racks.with_rack(turn.seat, rack_after(&net.arcs, place));
        }
    }
    Ok(Deal::of(held))
}
