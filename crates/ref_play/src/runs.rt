//! The runs that a play forms.
ghost use Rattle.std.specs.Prelude.{◌≡◌, ◌+◌, ◌<◌, ◌≤◌, ◌++◌, true, length};
ghost use Rattle.ref_board.specs.Cells.{holds};
ghost use Rattle.ref_play.specs.Formed.{runs_through, runs_formed};
ghost use Rattle.ref_play.specs.Legality.{IsLaid};

use crate::placed::Placed;
use arrayvec::ArrayVec;
use ref_board::{Board, Dir, Square};

/// The maximum number of runs that a play forms: one along it, and one across each of its tiles.
pub const RUNS: usize = 8;

/// A run: successive tiles of one row or one column.
#[derive(Clone, Copy, Debug, PartialEq, Eq)]
pub struct Run {
    /// The first square.
    pub start: Square,
    /// Across in a row, down in a column.
    pub dir: Dir,
    /// The number of its tiles.
    pub len: usize,
}

/// No tile, across from 1A on.
impl Default for Run {
    ghost use Rattle.ref_board.specs.declared.directions.Dir.TheVariants.{Across};

    ghost is_default = { λ run. (run.start ≡ 0) × (run.dir ≡ Across) × (run.len ≡ 0) };

    fn default() -> Run {
        Run {
            start: Square::default(),
            dir: Dir::Across,
            len: 0,
        }
    }
}

/// Adds the run through a square, if it has two tiles.
fn push_run(runs: &mut ArrayVec<Run, RUNS>, after: &Board, square: Square, dir: Dir)
    requires tile { holds after.now square ≡ true }
    requires room { length runs.old.items < 8 }
    ensures run { runs.new.items ≡ runs.old.items ++ runs_through dir after.now square }
    ensures few { length runs.new.items ≤ length runs.old.items + 1 }
{
    square.law_of_number();
    let (start, len) = after.run(square, dir);
    if len > 1 {
        runs.push(Run { start, dir, len });
    }
}

/// The run through a square, if it has two tiles.
fn run_along(after: &Board, square: Square, dir: Dir) -> ArrayVec<Run, RUNS>
    requires { holds after.now square ≡ true }
    ensures run { result.items ≡ runs_through dir after.now square }
    ensures few { length result.items ≤ 1 }
{
    let mut runs = ArrayVec::new();
    push_run(&mut runs, after, square, dir);
    runs
}

/// The runs that a play without a gap forms: the one along its direction, if it has two tiles, and then the cross runs
/// in the order of the new tiles. `after` is the board with the tiles of the play.
pub fn runs_of(after: &Board, dir: Dir, tiles: &[Placed]) -> ArrayVec<Run, RUNS>
    requires { IsLaid dir after.now tiles.now }
    ensures { result.items ≡ runs_formed dir after.now tiles.now }
{
    let Some((first, _rest)) = tiles.split_first() else {
        return ArrayVec::new();
    };
    let mut runs = run_along(after, first.square, dir);
    for placed in tiles {
        push_run(&mut runs, after, placed.square, dir.other());
    }
    runs
}
