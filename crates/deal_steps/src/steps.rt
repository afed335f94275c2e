//! The steps of a game: what each event means for the racks.
ghost use Rattle.std.specs.Prelude.{◌≡◌};
ghost use Rattle.deal_steps.specs.Steps.{size_of, opener};

use gcg_read::Seat;
use ref_tiles::Counts;

/// What a turn does with the tiles of its player's rack.
#[derive(Clone, Copy, Debug)]
pub enum Motion {
    /// The rack stays.
    Keeps,
    /// A play that stands puts tiles on the board, and the player draws a number of tiles.
    Lays {
        /// The tiles of the play.
        used: Counts,
        /// The number of tiles that the player draws.
        drawn: usize,
    },
    /// A play that does not stand puts tiles on the board, and nothing is drawn.
    Tries(Counts),
    /// An exchange throws these tiles, and the same number is drawn.
    Throws(Counts),
    /// An exchange throws this number of unknown tiles, and the same number is drawn.
    ThrowsUnknown(usize),
}

/// What an event means for the racks.
#[derive(Clone, Copy, Debug)]
pub enum Act {
    /// A turn, whose line states some tiles of its player.
    Turns {
        /// The tiles that the line states.
        shown: Counts,
        /// What the turn does with the tiles of the rack.
        motion: Motion,
    },
    /// A withdrawal takes the tiles of the play back.
    TakesBack(Counts),
    /// A last rack, which is all that its holder has.
    Ends {
        /// The player whose rack it is.
        holder: Seat,
        /// The tiles of the rack.
        tiles: Counts,
    },
    /// The event says nothing about the racks, and they stay.
    Rests,
}

/// What an event of a record does with tiles, and what is known before it.
#[derive(Clone, Copy, Debug)]
pub struct Step {
    /// The line of the event.
    pub line: u32,
    /// Its player.
    pub player: Seat,
    /// Whether it counts as a turn.
    pub counted: bool,
    /// What it means for the racks.
    pub act: Act,
    /// The tiles on the board before it.
    pub board: Counts,
    /// The number of tiles that the first player has before it.
    pub first: usize,
    /// The number of tiles that the second player has before it.
    pub second: usize,
    /// The number of tiles that the bag has before it.
    pub bag: usize,
}

impl Step {
    /// The number of tiles that a player has before the step.
    pub fn size_of(&self, seat: Seat) -> usize
        ensures { result ≡ size_of self.now seat }
    {
        match seat {
            Seat::First => self.first,
            Seat::Second => self.second,
        }
    }
}

/// Who draws first: the player of the first turn, or the first player if there is none.
#[tactic(auto, using(crate::proofs::OpenerLaws::opener_here, crate::proofs::OpenerLaws::opener_later))]
pub fn opener(steps: &[Step]) -> Seat
    ensures { result ≡ opener steps.now }
{
    for step in steps {
        if step.counted {
            return step.player;
        }
    }
    Seat::First
}
