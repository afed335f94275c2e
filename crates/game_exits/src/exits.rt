//! The exit status of each verdict.
ghost use Rattle.std.specs.Prelude.{◌≡◌, max};

use engine_stages::Verdict;

/// How the program ends.
#[derive(Clone, Copy)]
pub enum Exit {
    /// The game is legal, or what was requested is done, help included.
    Fine,
    /// The game is illegal.
    Illegal,
    /// Whether the game is legal was not settled.
    Unsettled,
    /// An input is not the word list, lexicon, record, rack, line of a record or rules text that it should be.
    BadInput,
    /// A device failed, or memory was refused.
    Broken,
    /// The command line is wrong.
    Usage,
}

impl Exit {
    ghost use Rattle.game_exits.specs.Exits.{status_of};

    /// The exit status.
    pub fn status(self) -> u8
        ensures { result ≡ status_of self }
    {
        match self {
            Exit::Fine => 0,
            Exit::Illegal => 1,
            Exit::Unsettled => 2,
            Exit::BadInput => 3,
            Exit::Broken => 4,
            Exit::Usage => 64,
        }
    }

    /// The one with the greater status.
    pub fn worse(self, other: Exit) -> Exit
        ensures { status_of result ≡ max (status_of self) (status_of other) }
    {
        if self.status() < other.status() {
            other
        } else {
            self
        }
    }
}

impl From<Verdict> for Exit {
    ghost use Rattle.std.specs.Prelude.{◌≡◌};
    ghost use Rattle.game_exits.specs.Exits.{exit_of};

    ghost from_gives = { λ verdict exit. exit ≡ exit_of verdict };

    fn from(verdict: Verdict) -> Exit {
        match verdict {
            Verdict::Legal { .. } | Verdict::Done => Exit::Fine,
            Verdict::Illegal { .. } => Exit::Illegal,
            Verdict::Unsettled => Exit::Unsettled,
            Verdict::BadList
            | Verdict::BadFile
            | Verdict::BadRecord
            | Verdict::BadRack
            | Verdict::BadRules
            | Verdict::BadLine => Exit::BadInput,
        }
    }
}
