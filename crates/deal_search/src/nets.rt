//! The ways of all tiles through a whole game, as a net of nodes and arcs.
//!
//! Each move has three nodes: the bag before it, the player's rack before it is asked for tiles, and the same rack after that. One
//! more node is the end. Five arcs leave each move: what stays in the bag, what is drawn from it, the rack with what is asked for,
//! what the rack keeps, and what it throws without being known.
use crate::arcs::Arc;
use crate::moves::{Move, all_tiles, moves_of};
use crate::picking::{drawn, thrown};
use crate::piles::{Pile, minus, plus};
use deal_steps::Step;
use gcg_read::Seat;
use ref_tiles::{KINDS, Rules};
use std::alloc::{AllocError, Global};

/// The number of arcs that leave each move.
pub const ARCS: usize = 5;

/// The bag before a move.
pub fn bag_node(place: usize) -> usize {
    place.saturating_mul(3)
}

/// A rack before its player's move at a place, or the end.
pub fn rack_node(place: usize, moves: usize) -> usize {
    if place < moves {
        place.saturating_mul(3).saturating_add(1)
    } else {
        bag_node(moves)
    }
}

/// A rack after it was asked for tiles.
pub fn asked_node(place: usize) -> usize {
    place.saturating_mul(3).saturating_add(2)
}

/// The moves of a game, and the ways of its tiles.
#[derive(Drop)]
pub struct Net {
    /// The moves, two for the draws that open the game, and one for each step.
    pub moves: Vec<Move>,
    /// The arcs, five for each move.
    pub arcs: Vec<Arc>,
    /// The tiles in the bag before the first move.
    pub all: Pile,
    /// The tiles in play at the end.
    pub remaining: Pile,
}

/// Where the tiles are while they are dealt.
#[derive(Drop)]
struct Table {
    bag: Pile,
    first: Pile,
    second: Pile,
}

impl Table {
    /// The rack of a player.
    fn rack(&self, seat: Seat) -> Pile {
        match seat {
            Seat::First => self.first,
            Seat::Second => self.second,
        }
    }

    /// Sets the rack of a player.
    fn set(&mut self, seat: Seat, rack: Pile) {
        match seat {
            Seat::First => self.first = rack,
            Seat::Second => self.second = rack,
        }
    }
}

/// Makes a move, and adds its arcs.
fn make_move(
    moves: &[Move],
    place: usize,
    table: &mut Table,
    arcs: &mut Vec<Arc>,
) -> Result<(), AllocError> {
    if place >= moves.len() {
        return Ok(());
    }
    let turn = &moves[place];
    let none = [0; KINDS];
    let rack = table.rack(turn.seat);
    let mut kept = minus(&rack, &turn.leave);
    let thrown = thrown(moves, turn.next, &kept, turn.throws);
    kept = minus(&kept, &thrown);
    let drawn = drawn(moves, turn.next, &kept, &table.bag, turn.draws);
    let rest = minus(&table.bag, &drawn);
    let next = rack_node(turn.next, moves.len());
    let next_bag = bag_node(place.saturating_add(1));
    arcs.push(Arc::new(bag_node(place), next_bag, &rest, &none))?;
    arcs.push(Arc::new(bag_node(place), next, &drawn, &none))?;
    arcs.push(Arc::new(
        rack_node(place, moves.len()),
        asked_node(place),
        &rack,
        &turn.need,
    ))?;
    arcs.push(Arc::new(asked_node(place), next, &kept, &none))?;
    arcs.push(Arc::new(asked_node(place), next_bag, &thrown, &none))?;
    table.bag = plus(&rest, &thrown);
    if turn.to_bag {
        table.bag = plus(&table.bag, &turn.leave);
    }
    table.set(turn.seat, plus(&kept, &drawn));
    Ok(())
}

impl Net {
    /// The net of a game. Each draw first takes what the player's lines to come ask for.
    pub fn new(alloc: Global, rules: &Rules, steps: &[Step]) -> Result<Net, AllocError> {
        let moves = moves_of(alloc, steps)?;
        let mut arcs = Vec::new(alloc);
        let all = all_tiles(rules);
        let mut table = Table {
            bag: all,
            first: [0; KINDS],
            second: [0; KINDS],
        };
        for place in 0..moves.len() {
            make_move(&moves, place, &mut table, &mut arcs)?;
        }
        let remaining = plus(&table.bag, &plus(&table.first, &table.second));
        Ok(Net {
            moves,
            arcs,
            all,
            remaining,
        })
    }

    /// The number of nodes.
    pub fn nodes(&self) -> usize {
        bag_node(self.moves.len()).saturating_add(1)
    }
}
