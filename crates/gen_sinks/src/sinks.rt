//! Sinks, which take plays one by one.
ghost use Rattle.std.specs.Prelude.{◌≡◌, ◌≤ℤ◌, List, Option, None, Bool, true, false, IsOk, IsTrue, OnOk, OnErr};
ghost use Rattle.ref_tiles.specs.declared.tiles.Tile.{Tile};
ghost use Rattle.ref_play.specs.Best.{Given};
ghost use Rattle.gen_sinks.specs.Sinks.{seen, CanTake};
ghost use Rattle.gen_sinks.specs.Skips.{GoesDown};

use ref_play::Play;

/// Memory ran out.
pub use std::alloc::AllocError as NoMemory;

/// What takes plays one by one, each with its score. Its list of plays, what one more play does to it, and `take` make a sink: one
/// that was not made for a board and may be refused memory, unless it says otherwise.
pub trait Sink {
    // The board whose plays it takes, if it was made for one.
    ghost made_for: { Self → Option (List (Option Tile)) } = { λ _. None };

    // Whether it takes memory.
    ghost grows: { Bool } = { true };

    // The plays that it has, with their scores.
    ghost items: { Self → List Given };

    // The plays that it has with one more, on its board.
    ghost add: { Option (List (Option Tile)) → List Given → Given → List Given };

    /// Whether it is known that no play that scores at most the bound would change what the sink has.
    fn skips(&self, _bound: i32) -> bool
        ensures { IsTrue result → (given : Given) → given.score ≤ℤ _bound
            → add (made_for self.now) (items self.now) given ≡ items self.now }
    {
        false
    }

    /// Whether it is known that no play that is written down and scores at most the bound would change what the sink has.
    fn skips_down(&self, _bound: i32) -> bool
        ensures { IsTrue result → (given : Given) → GoesDown (made_for self.now) given → given.score ≤ℤ _bound
            → add (made_for self.now) (items self.now) given ≡ items self.now }
    {
        false
    }

    /// Takes a play with its score. A sink that was made for a board requires that the play is legal on that board.
    ///
    /// # Errors
    ///
    /// Memory ran out. The sink then has what it had before.
    fn take(&mut self, play: &Play, score: i32) -> Result<(), NoMemory>
        requires { CanTake (made_for self.old) play.now.tiles.items }
        ensures board { made_for self.new ≡ made_for self.old }
        ensures taken { OnOk result (items self.new ≡ add (made_for self.old) (items self.old) (seen play.now score)) }
        ensures refused { OnErr result (items self.new ≡ items self.old) }
        ensures steady { grows ≡ false → IsOk result };
}
