//! The cheapest ways to pass a tile on.
use crate::arcs::{Arc, Other};

/// The cost of a node that cannot be reached.
pub const FAR: u32 = u32::MAX;

/// The number of passes over the arcs.
const SWEEPS: usize = 24;

/// How a node is reached.
#[derive(Clone, Copy)]
pub struct Reach {
    /// The cost.
    pub cost: u32,
    /// The arc by which it is reached,
    pub arc: usize,
    /// and whether it is reached from the node that the arc leaves.
    pub along: bool,
}

/// The arc that lacks a tile of a kind, and what it gives up for it.
#[derive(Clone, Copy)]
pub struct Quest {
    /// The arc.
    pub arc: usize,
    /// The node that has one tile of the kind too many once the arc has one more.
    pub start: usize,
    /// The node that then lacks one.
    pub goal: usize,
    /// The kind.
    pub kind: usize,
    /// What is given up.
    pub other: Other,
}

/// The cost of reaching a node.
pub fn cost_of(reach: &[Reach], node: usize) -> u32 {
    match reach.get(node) {
        Some(by) => by.cost,
        None => FAR,
    }
}

/// Marks all nodes but the start as unreached.
fn clear(reach: &mut Vec<Reach>, start: usize) {
    for node in 0..reach.len() {
        let cost = if node == start { 0 } else { FAR };
        reach[node] = Reach {
            cost,
            arc: 0,
            along: true,
        };
    }
}

/// Reaches a node from another, if that is cheaper.
fn relax(reach: &mut Vec<Reach>, from: usize, to: usize, by: Reach) -> bool {
    let base = cost_of(reach, from);
    let cost = base.saturating_add(by.cost);
    if to < reach.len() && cost < cost_of(reach, to) {
        reach[to] = Reach {
            cost,
            arc: by.arc,
            along: by.along,
        };
        return true;
    }
    false
}

/// Reaches the two nodes of an arc from each other, if that is cheaper.
fn relax_arc(arc: &Arc, index: usize, quest: &Quest, reach: &mut Vec<Reach>) -> bool {
    let mut changed = false;
    if let Some(cost) = arc.cost_along(quest.kind, quest.other) {
        let by = Reach {
            cost,
            arc: index,
            along: true,
        };
        changed = relax(reach, arc.from, arc.to, by);
    }
    if let Some(cost) = arc.cost_against(quest.kind) {
        let by = Reach {
            cost,
            arc: index,
            along: false,
        };
        if relax(reach, arc.to, arc.from, by) {
            changed = true;
        }
    }
    changed
}

/// Passes over all arcs once, from the first or from the last. The answer is whether a node became cheaper.
fn sweep(arcs: &[Arc], quest: &Quest, forward: bool, reach: &mut Vec<Reach>) -> bool {
    let mut changed = false;
    for number in 0..arcs.len() {
        let index = if forward {
            number
        } else {
            arcs.len() - 1 - number
        };
        if index != quest.arc && relax_arc(&arcs[index], index, quest, reach) {
            changed = true;
        }
    }
    changed
}

/// Finds the cost of each node, as far as the passes over the arcs reach. The answer is no if the budget is spent.
pub fn find_paths(arcs: &[Arc], quest: &Quest, reach: &mut Vec<Reach>, budget: &mut usize) -> bool {
    clear(reach, quest.start);
    for number in 0..SWEEPS {
        if *budget < arcs.len() {
            *budget = 0;
            return false;
        }
        *budget -= arcs.len();
        let changed = sweep(arcs, quest, number % 2 == 0, reach);
        if !changed || cost_of(reach, quest.goal) == 0 {
            return true;
        }
    }
    true
}
