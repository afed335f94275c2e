//! The faults of a record.
ghost use Rattle.std.specs.Prelude.{◌≡◌};

use std::alloc::AllocError;

/// Why a record has no meaning, in the order in which the faults of one line are checked: `Position` and `Word`, or `Code` in their
/// place, come before `Number`.
#[derive(Clone, Copy, Debug, PartialEq, Eq)]
pub enum Why {
    /// The record has more than 1,048,576 bytes. This is checked before all else.
    TooLong,
    /// The line is the event after the 1,000th.
    TooManyEvents,
    /// No colon comes after the nickname, or there is no nickname, or it has a blank inside.
    NoColon,
    /// The nickname of an event is a third one, or that of a pragma is the other player's.
    ThirdPlayer,
    /// Fewer than 3 fields or more than 5 come after the colon.
    Fields,
    /// The rack is not 1 to 7 of A to Z and `?`.
    Rack,
    /// The position is not a row from 1 to 15 and a column from A to O, or these the other way round.
    Position,
    /// The word, without its round brackets, is not 1 to 15 letters and dots.
    Word,
    /// The score or the total is not 1 to 6 digits after an optional sign.
    Number,
    /// What is in place of a position and a word is not a code: not `-` or `--`, not `-` with 1 to 7 tiles or
    /// with one digit from 1 to 7, not `(challenge)` or `(time)`, and not 1 to 7 tiles in round brackets.
    Code,
    /// Memory ran out.
    NoMemory,
}

impl Why {
    ghost use Rattle.gcg_read.specs.Faults.{name_of};

    /// The name of the fault, as reports print it.
    pub fn name(&self) -> &'static str
        ensures { result.now ≡ name_of self.now }
    {
        match self {
            Why::TooLong => "TooLong",
            Why::TooManyEvents => "TooManyEvents",
            Why::NoColon => "NoColon",
            Why::ThirdPlayer => "ThirdPlayer",
            Why::Fields => "Fields",
            Why::Rack => "Rack",
            Why::Position => "Position",
            Why::Word => "Word",
            Why::Number => "Number",
            Why::Code => "Code",
            Why::NoMemory => "NoMemory",
        }
    }
}

/// The first fault of a record.
#[derive(Clone, Copy, Debug, PartialEq, Eq)]
pub struct ReadFault {
    /// The line of the fault, counted from 1; 0 for `TooLong` and `NoMemory`, which are not on a line.
    pub line: u32,
    /// What is wrong there.
    pub why: Why,
}

impl ReadFault {
    ghost use Rattle.gcg_read.specs.Faults.{no_memory};

    /// Lack of memory, which is not on a line.
    pub fn no_memory() -> ReadFault
        ensures { result ≡ no_memory }
    {
        ReadFault {
            line: 0,
            why: Why::NoMemory,
        }
    }
}

impl From<AllocError> for ReadFault {
    ghost use Rattle.std.specs.Prelude.{◌≡◌};
    ghost use Rattle.gcg_read.specs.Faults.{no_memory};

    ghost from_gives = { λ _ fault. fault ≡ no_memory };

    fn from(_error: AllocError) -> ReadFault {
        ReadFault::no_memory()
    }
}
