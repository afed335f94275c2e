//! The places of a board from which plays are searched for, those that can score most first.
ghost use Rattle.std.specs.Prelude.{◌<◌};
ghost use Rattle.std.specs.List.Sorted.{IsPermutation};
ghost use Rattle.gen_moves.specs.Starts.{IsStartOf, AreStarts};

use ref_board::{Dir, SIDE};
use ref_tiles::SQUARES;

/// The number of places of the lines of both directions.
pub const STARTS: usize = 2 * SQUARES;

/// A place of a line, from which the plays are searched for whose first covered anchor it is.
#[derive(Clone, Copy)]
pub struct Start {
    /// The direction of the line.
    pub dir: Dir,
    /// Its row across, its column down, from 0.
    pub line: usize,
    /// The place on the line, from 0.
    pub place: usize,
    /// An upper bound for the scores of these plays.
    pub bound: u64,
}

/// The place with a number: those of the lines across come first.
fn start_of(across: &[[u64; SIDE]; SIDE], down: &[[u64; SIDE]; SIDE], number: usize) -> Start
    requires { number < STARTS }
    ensures { IsStartOf across.now down.now number result }
{
    let line = number / SIDE % SIDE;
    let place = number % SIDE;
    if number < SQUARES {
        return Start {
            dir: Dir::Across,
            line,
            place,
            bound: across[line][place],
        };
    }
    Start {
        dir: Dir::Down,
        line,
        place,
        bound: down[line][place],
    }
}

/// All places of both directions, with bounds for the plays of each.
pub fn all_starts(across: &[[u64; SIDE]; SIDE], down: &[[u64; SIDE]; SIDE]) -> [Start; STARTS]
    ensures { AreStarts across.now down.now result }
{
    let mut starts = [Start {
        dir: Dir::Across,
        line: 0,
        place: 0,
        bound: 0,
    }; STARTS];
    for number in 0..STARTS {
        starts[number] = start_of(across, down, number);
    }
    starts
}

/// The greatest bound that the order of starts distinguishes from others.
const MOST_TOLD: u64 = 1 << 40;

/// A number for the order of starts: smaller for a greater bound, and among equal bounds smaller for one along a row, since among
/// plays with the same score those across come first.
fn order_of(start: &Start) -> u64 {
    2 * MOST_TOLD.saturating_sub(start.bound) + u64::from(matches!(start.dir, Dir::Down))
}

/// The same places, those first whose plays can score most.
pub fn best_first(starts: [Start; STARTS]) -> [Start; STARTS]
    ensures { IsPermutation starts result }
{
    let mut sorted = starts;
    sorted.sort_unstable_by_key(|start| order_of(start));
    sorted
}
