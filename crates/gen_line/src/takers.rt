//! What takes the moves of a line, one by one.
ghost use Rattle.std.specs.Prelude.{◌≡◌, List, [], ◌∷◌, ℕ, Bool, false, IsOk};
ghost use Rattle.gen_line.specs.Walk.{Gave};

use ref_board::SIDE;
use std::alloc::AllocError as NoMemory;

/// The number of entries: none, and for each letter a tile of it and a blank that shows it.
pub const ENTRIES: u8 = 53;

/// What takes the moves of a line: it makes of each what a sink keeps, and gives it to the sink.
///
/// A move is an entry for each place of the line: 0 for no new tile, otherwise 1 + 2 * letter, with A as 0, plus one if a blank
/// shows the letter.
pub trait Taker<S> {
    // How the sink is seen.
    ghost Items: { Type 0 };

    // What the sink has.
    ghost items: { S → Items };

    // What decides which moves the sink takes, and what it makes of them.
    ghost Purpose: { Type 0 };

    // What the sink was made for.
    ghost made_for: { S → Purpose };

    // Whether a sink takes a move.
    ghost can_take: { Self → Purpose → List ℕ → Type 0 };

    // What a sink has after one more move.
    ghost report: { Self → Purpose → Items → List ℕ → Items };

    // Whether the sink may be refused memory.
    ghost grows: { Bool };

    /// Gives a sink a move.
    ///
    /// # Errors
    ///
    /// Memory ran out in the sink. It then has what it had before.
    fn take(&self, fresh: &[u8; SIDE], sink: &mut S) -> Result<(), NoMemory>
        requires { can_take self.now (made_for sink.old) fresh.now }
        ensures made_for { made_for sink.new ≡ made_for sink.old }
        ensures took { Gave (report self.now) made_for items sink.old (fresh.now ∷ []) sink.new result }
        ensures steady { grows ≡ false → IsOk result };
}
