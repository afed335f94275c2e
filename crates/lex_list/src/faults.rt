//! Why a text is not a word list.
ghost use Rattle.std.specs.Prelude.{◌≡◌};

use std::alloc::AllocError;

/// Why a text is not a word list, in the order in which the faults of one line are checked.
#[derive(Clone, Copy, Debug, PartialEq, Eq)]
pub enum ListWhy {
    /// A byte of the line is not A to Z or a to z; spaces and tabs are not letters.
    BadLetter,
    /// The line has only letters, but not 2 to 15.
    BadLength,
    /// The line has the word past the 400,000th distinct one.
    TooMany,
    /// The text has more than 16,777,216 bytes. This is checked before all else.
    TooLong,
    /// Memory ran out.
    NoMemory,
}

impl ListWhy {
    ghost use Rattle.lex_list.specs.Faults.{name_of};

    /// The name of the fault, as reports print it.
    pub fn name(&self) -> &'static str
        ensures { result.now ≡ name_of self.now }
    {
        match self {
            ListWhy::BadLetter => "BadLetter",
            ListWhy::BadLength => "BadLength",
            ListWhy::TooMany => "TooMany",
            ListWhy::TooLong => "TooLong",
            ListWhy::NoMemory => "NoMemory",
        }
    }
}

/// The first fault of a word list.
#[derive(Clone, Copy, Debug, PartialEq, Eq)]
pub struct ListFault {
    /// The line of the fault, counted from 1; 0 for `TooLong` and `NoMemory`, which are not on a line.
    pub line: u32,
    /// What is wrong there.
    pub why: ListWhy,
}

impl ListFault {
    ghost use Rattle.lex_list.specs.Faults.{no_memory};

    /// Lack of memory, which is not on a line.
    pub fn no_memory() -> ListFault
        ensures { result ≡ no_memory }
    {
        ListFault {
            line: 0,
            why: ListWhy::NoMemory,
        }
    }
}

impl From<AllocError> for ListFault {
    ghost use Rattle.std.specs.Prelude.{◌≡◌};
    ghost use Rattle.lex_list.specs.Faults.{no_memory};

    ghost from_gives = { λ _ fault. fault ≡ no_memory };

    fn from(_error: AllocError) -> ListFault {
        ListFault::no_memory()
    }
}
