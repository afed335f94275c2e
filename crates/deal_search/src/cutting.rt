//! Proofs that there is no deal, from the nodes that can be reached at little cost.
use crate::nets::{Net, asked_node, bag_node, rack_node};
use crate::paths::{FAR, Reach, cost_of};
use crate::piles::{Pile, minus, plus};
use deal_cuts::{Cut, Places};
use ref_tiles::KINDS;
use std::alloc::{AllocError, Global};

/// The number of levels of cost that are tried.
const LEVELS: usize = 8;

/// For each kind, how many more tiles must be in some places than may leave them; and how many tiles of any kind may leave.
#[derive(Drop)]
struct Excess {
    own: Pile,
    room: i32,
}

/// The nodes that are reached at less than some cost.
#[derive(Drop)]
struct Near<'a> {
    reach: &'a [Reach],
    level: u32,
}

impl Near<'_> {
    /// Whether a node is one of them.
    fn has(&self, node: usize) -> bool {
        cost_of(self.reach, node) < self.level
    }
}

/// The least cost of a node above some cost.
fn level_above(reach: &[Reach], cost: u32) -> u32 {
    let mut level = FAR;
    for by in reach {
        if by.cost > cost && by.cost < level {
            level = by.cost;
        }
    }
    level
}

impl Excess {
    /// What is there at the start and must be there at the end.
    fn new(net: &Net, near: &Near<'_>) -> Excess {
        let mut own = [0; KINDS];
        if near.has(bag_node(0)) {
            own = plus(&own, &net.all);
        }
        if near.has(bag_node(net.moves.len())) {
            own = minus(&own, &net.remaining);
        }
        Excess { own, room: 0 }
    }

    /// Subtracts the known tiles that leave racks, and adds those of exchanges back.
    fn count_moves(&mut self, net: &Net, near: &Near<'_>) {
        for place in 0..net.moves.len() {
            let turn = &net.moves[place];
            if near.has(asked_node(place)) {
                self.own = minus(&self.own, &turn.leave);
            }
            if turn.to_bag && near.has(bag_node(place.saturating_add(1))) {
                self.own = plus(&self.own, &turn.leave);
            }
        }
    }

    /// Counts what is asked for on an arc as it comes in or goes out; what is not asked for may go with it.
    fn count_arcs(&mut self, net: &Net, near: &Near<'_>) {
        for arc in &net.arcs {
            let from = near.has(arc.from);
            let to = near.has(arc.to);
            if from && !to {
                self.room = self.room.wrapping_add(arc.loose);
                self.own = minus(&self.own, &arc.need);
            }
            if to && !from {
                self.own = plus(&self.own, &arc.need);
            }
        }
    }

    /// Whether some kinds have more tiles than there is room for: those of which there are too many.
    fn is_too_much(&self) -> bool {
        let mut sum = 0i32;
        for number in &self.own {
            sum = sum.wrapping_add((*number).max(0));
        }
        sum > self.room
    }

    /// The kinds of which there are too many.
    fn kinds(&self) -> [bool; KINDS] {
        let mut kinds = [false; KINDS];
        for kind in 0..KINDS {
            kinds[kind] = self.own[kind] > 0;
        }
        kinds
    }
}

/// The cut of some kinds and nodes: which of the bag and the racks are among the nodes before each step.
fn cut_of(
    alloc: Global,
    net: &Net,
    near: &Near<'_>,
    kinds: [bool; KINDS],
) -> Result<Cut, AllocError> {
    let count = net.moves.len();
    let mut places = Vec::new(alloc);
    for place in 2..count {
        let turn = &net.moves[place];
        places.push(Places {
            bag: near.has(bag_node(place)),
            first: near.has(rack_node(turn.first, count)),
            second: near.has(rack_node(turn.second, count)),
        })?;
    }
    Ok(Cut { kinds, places })
}

/// A cut by the nodes that are reached at less than some cost, if more tiles of some kinds must be there than there can be.
fn cut_at(alloc: Global, net: &Net, near: &Near<'_>) -> Result<Option<Cut>, AllocError> {
    let mut excess = Excess::new(net, near);
    excess.count_moves(net, near);
    excess.count_arcs(net, near);
    if !excess.is_too_much() {
        return Ok(None);
    }
    let cut = cut_of(alloc, net, near, excess.kinds())?;
    Ok(Some(cut))
}

/// The first cut by the nearest nodes, up to those that are reached at the cost of the goal.
pub fn cut_below(
    alloc: Global,
    net: &Net,
    reach: &[Reach],
    goal: usize,
) -> Result<Option<Cut>, AllocError> {
    let most = cost_of(reach, goal);
    let mut level = 0;
    for _ in 0..LEVELS {
        if level >= most {
            return Ok(None);
        }
        level = level_above(reach, level);
        let near = Near { reach, level };
        if let Some(cut) = cut_at(alloc, net, &near)? {
            return Ok(Some(cut));
        }
    }
    Ok(None)
}
