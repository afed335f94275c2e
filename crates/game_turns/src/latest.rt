//! The latest event, with what the next one may need to know of it.
ghost use Rattle.std.specs.Prelude.{pos, ◌≤ℤ◌};

use gcg_read::Seat;
use ref_play::{Play, Words};

/// A play on the board that was the latest event.
#[derive(Drop)]
pub struct Laid {
    /// The player who made it.
    pub player: Seat,
    /// Its new tiles.
    pub play: Play,
    /// The words that it forms.
    pub words: Words,
    /// Its score.
    pub score: i32,
    /// Whether it stands; if not, it awaits its withdrawal.
    pub stands: bool,
    pub ghost whole: { pos 0 ≤ℤ score },
}

/// What the latest event left.
#[derive(Drop)]
pub enum LatestEvent {
    /// A play.
    Played(Laid),
    /// A withdrawal, which took this play back.
    TakenBack(Play),
    /// Anything else, or nothing yet.
    Other,
}
