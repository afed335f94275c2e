//! Swaps along the cheapest ways, until no arc lacks a tile or a cut is found.
use crate::arcs::{Arc, Other};
use crate::cutting::cut_below;
use crate::nets::Net;
use crate::paths::{FAR, Quest, Reach, cost_of, find_paths};
use crate::piles::number_of;
use deal_cuts::{Cut, rules_out};
use deal_steps::Step;
use ref_tiles::{KINDS, Rules};
use std::alloc::{AllocError, Global};

/// The outcome for a net.
#[derive(Drop)]
pub enum Mended {
    /// No arc lacks a tile.
    Whole,
    /// There is no deal, by this cut.
    Cut(Cut),
    /// Neither was found within the budget.
    Open,
}

/// A kind that may be given up, and its cost.
#[derive(Clone, Copy)]
struct Choice {
    kind: usize,
    cost: u32,
}

/// The first arc that lacks a tile, and the kind.
fn first_lack(arcs: &[Arc]) -> Option<Quest> {
    for (index, arc) in arcs.iter().enumerate() {
        if let Some(kind) = arc.lack() {
            return Some(Quest {
                arc: index,
                start: arc.to,
                goal: arc.from,
                kind,
                other: Other::Any,
            });
        }
    }
    None
}

/// The same quest with another kind to give up.
fn with_other(quest: &Quest, other: Other) -> Quest {
    Quest {
        arc: quest.arc,
        start: quest.start,
        goal: quest.goal,
        kind: quest.kind,
        other,
    }
}

/// Whether an arc has tiles of a kind to give up.
fn can_spare(arcs: &[Arc], index: usize, kind: usize) -> bool {
    match arcs.get(index) {
        Some(arc) => number_of(&arc.spare, kind) > 0,
        None => false,
    }
}

/// The kind that costs least to give up: the first that costs nothing, otherwise the cheapest.
fn choose(arcs: &[Arc], quest: &Quest, reach: &mut Vec<Reach>, budget: &mut usize) -> Choice {
    let mut best = Choice { kind: 0, cost: FAR };
    for kind in 0..KINDS {
        if can_spare(arcs, quest.arc, kind) {
            let swap = with_other(quest, Other::Kind(kind));
            if !find_paths(arcs, &swap, reach, budget) {
                return Choice { kind, cost: FAR };
            }
            let cost = cost_of(reach, quest.goal);
            if cost < best.cost {
                best = Choice { kind, cost };
            }
            if cost == 0 {
                return best;
            }
        }
    }
    best
}

/// Swaps a tile along the way that was found.
fn swap_along(arcs: &mut Vec<Arc>, quest: &Quest, other: usize, reach: &[Reach]) {
    let mut node = quest.goal;
    if quest.arc < arcs.len() {
        let first = &mut arcs[quest.arc];
        first.swap(quest.kind, other);
    }
    for _ in 0..reach.len() {
        if node == quest.start || node >= reach.len() {
            return;
        }
        let by = reach[node];
        if by.arc >= arcs.len() {
            return;
        }
        let arc = &mut arcs[by.arc];
        if by.along {
            arc.swap(quest.kind, other);
            node = arc.from;
        } else {
            arc.swap(other, quest.kind);
            node = arc.to;
        }
    }
}

/// Ways to all nodes of a net.
fn no_ways(alloc: Global, nodes: usize) -> Result<Vec<Reach>, AllocError> {
    let mut reach = Vec::new(alloc);
    for _ in 0..nodes {
        reach.push(Reach {
            cost: FAR,
            arc: 0,
            along: true,
        })?;
    }
    Ok(reach)
}

/// What mending the net of a game works with.
#[derive(Drop)]
struct Mending<'a> {
    alloc: Global,
    rules: &'a Rules,
    steps: &'a [Step],
    /// The latest ways to all nodes.
    reach: Vec<Reach>,
    /// The number of visits of arcs that are left.
    budget: usize,
}

impl<'a> Mending<'a> {
    /// A cut that proves that there is no deal, from the ways of one swap.
    fn cut_by(&mut self, net: &Net, quest: &Quest) -> Result<Option<Cut>, AllocError> {
        if !find_paths(&net.arcs, quest, &mut self.reach, &mut self.budget) {
            return Ok(None);
        }
        match cut_below(self.alloc, net, &self.reach, quest.goal)? {
            Some(cut) if rules_out(self.rules, self.steps, &cut) => Ok(Some(cut)),
            Some(_) | None => Ok(None),
        }
    }

    /// A cut that proves that there is no deal, from the ways of all swaps.
    fn find_cut(&mut self, net: &Net, quest: &Quest) -> Result<Option<Cut>, AllocError> {
        for kind in 0..KINDS {
            if can_spare(&net.arcs, quest.arc, kind) {
                let swap = with_other(quest, Other::Kind(kind));
                if let Some(cut) = self.cut_by(net, &swap)? {
                    return Ok(Some(cut));
                }
            }
        }
        self.cut_by(net, quest)
    }

    /// Mends one lack. The answer is the outcome for the net, if it is known.
    fn mend_one(&mut self, net: &mut Net) -> Result<Option<Mended>, AllocError> {
        let Some(quest) = first_lack(&net.arcs) else {
            return Ok(Some(Mended::Whole));
        };
        let choice = choose(&net.arcs, &quest, &mut self.reach, &mut self.budget);
        if choice.cost > 0 {
            if let Some(cut) = self.find_cut(net, &quest)? {
                return Ok(Some(Mended::Cut(cut)));
            }
            let swap = with_other(&quest, Other::Kind(choice.kind));
            if choice.cost == FAR
                || !find_paths(&net.arcs, &swap, &mut self.reach, &mut self.budget)
            {
                return Ok(Some(Mended::Open));
            }
        }
        swap_along(&mut net.arcs, &quest, choice.kind, &self.reach);
        Ok(None)
    }
}

/// Mends a net, within a budget of visits of arcs.
pub fn mend(
    alloc: Global,
    rules: &Rules,
    steps: &[Step],
    net: &mut Net,
    budget: usize,
) -> Result<Mended, AllocError> {
    let mut mending = Mending {
        alloc,
        rules,
        steps,
        reach: no_ways(alloc, net.nodes())?,
        budget,
    };
    for _ in 0..budget {
        if let Some(mended) = mending.mend_one(net)? {
            return Ok(mended);
        }
    }
    Ok(Mended::Open)
}
