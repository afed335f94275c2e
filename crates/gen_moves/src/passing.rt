//! Which plays a sink need not see.
ghost use Rattle.std.specs.Prelude.{◌≡◌, ◌≤ℤ◌, pos, IsTrue};
ghost use Rattle.ref_play.specs.Best.{Given};
ghost use Rattle.gen_moves.specs.Starts.{GoesAlong};

use gen_sinks::Sink;
use ref_board::Dir;

/// The greatest score that is considered.
const MOST: u64 = i32::MAX as u64;

/// Whether no play that is written in a direction and scores at most `bound` would change what a sink has.
pub fn passes<S: Sink>(sink: &S, dir: Dir, bound: u64) -> bool
    ensures { IsTrue result → (given : Given) → GoesAlong (S.made_for sink.now) dir given → given.score ≤ℤ pos bound
        → S.add (S.made_for sink.now) (S.items sink.now) given ≡ S.items sink.now }
{
    if bound > MOST {
        return false;
    }
    match dir {
        Dir::Across => sink.skips(bound as i32),
        Dir::Down => sink.skips_down(bound as i32),
    }
}
