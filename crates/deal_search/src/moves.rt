//! What each step does with tiles, as far as a deal needs it.
use crate::piles::{Pile, pile_of, sum_of};
use deal_steps::{Act, Motion, Step, greater, opener, used_by};
use gcg_read::Seat;
use ref_tiles::{Counts, KINDS, Rules};
use std::alloc::{AllocError, Global};

/// A step of one player: what the rack must have, what leaves it, and what comes.
#[derive(Clone, Copy)]
pub struct Move {
    /// The player whose rack it is.
    pub seat: Seat,
    /// The tiles that must be on the rack.
    pub need: Pile,
    /// The known tiles that leave it.
    pub leave: Pile,
    /// Whether these go to the bag and not to the board.
    pub to_bag: bool,
    /// The number of unknown tiles that are thrown to the bag.
    pub throws: i32,
    /// The number of tiles that are drawn.
    pub draws: i32,
    /// The place of the next move of the same player, or the number of all moves.
    pub next: usize,
    /// The place of the first player's next move from this one on, or the number of all moves,
    pub first: usize,
    /// and that of the second player.
    pub second: usize,
}

/// A number of tiles. No game has more than a million.
fn tiles(number: usize) -> i32 {
    number.min(1_000_000) as i32
}

impl Move {
    /// A move that asks for nothing and draws a number of tiles.
    fn drawing(seat: Seat, draws: i32) -> Move {
        Move {
            seat,
            need: [0; KINDS],
            leave: [0; KINDS],
            to_bag: false,
            throws: 0,
            draws,
            next: 0,
            first: 0,
            second: 0,
        }
    }

    /// The move of a turn.
    fn of_turn(seat: Seat, shown: &Counts, motion: &Motion) -> Move {
        let mut turn = Move::drawing(seat, 0);
        turn.need = pile_of(&greater(shown, &used_by(motion)));
        match motion {
            Motion::Lays { used, drawn } => {
                turn.leave = pile_of(used);
                turn.draws = tiles(*drawn);
            }
            Motion::Throws(thrown) => {
                turn.leave = pile_of(thrown);
                turn.to_bag = true;
                turn.draws = sum_of(&turn.leave);
            }
            Motion::ThrowsUnknown(number) => {
                turn.throws = tiles(*number);
                turn.draws = tiles(*number);
            }
            Motion::Keeps | Motion::Tries(_) => {}
        }
        turn
    }

    /// The move of a step. A play that is taken back shows its tiles and does nothing else.
    fn of_step(step: &Step) -> Move {
        match &step.act {
            Act::Turns { shown, motion } => Move::of_turn(step.player, shown, motion),
            Act::Ends { holder, tiles } => {
                let mut last = Move::drawing(*holder, 0);
                last.need = pile_of(tiles);
                last
            }
            Act::TakesBack(_) | Act::Rests => Move::drawing(step.player, 0),
        }
    }
}

/// The number of tiles that a player draws before the first step.
fn opening(seat: Seat, steps: &[Step]) -> i32 {
    match steps.first() {
        Some(step) => tiles(step.size_of(seat)),
        None => 0,
    }
}

/// The moves of the steps after the two draws that open the game, not yet linked.
fn listed(alloc: Global, steps: &[Step]) -> Result<Vec<Move>, AllocError> {
    let first = opener(steps);
    let second = first.other();
    let mut moves = Vec::new(alloc);
    moves.push(Move::drawing(first, opening(first, steps)))?;
    moves.push(Move::drawing(second, opening(second, steps)))?;
    for step in steps {
        moves.push(Move::of_step(step))?;
    }
    Ok(moves)
}

/// Links each move to the next ones, of its player and of both.
fn chain(moves: &mut [Move]) {
    let count = moves.len();
    let mut first = count;
    let mut second = count;
    for back in 0..count {
        let place = count - 1 - back;
        let turn = &mut moves[place];
        match turn.seat {
            Seat::First => {
                turn.next = first;
                first = place;
            }
            Seat::Second => {
                turn.next = second;
                second = place;
            }
        }
        turn.first = first;
        turn.second = second;
    }
}

/// The moves of a game: the two draws that open it, and one for each step.
pub fn moves_of(alloc: Global, steps: &[Step]) -> Result<Vec<Move>, AllocError> {
    let mut moves = listed(alloc, steps)?;
    chain(&mut moves);
    Ok(moves)
}

/// The tiles of the game.
pub fn all_tiles(rules: &Rules) -> Pile {
    pile_of(&rules.counts)
}
