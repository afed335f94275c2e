//! Why a line is not read.
ghost use Rattle.std.specs.Prelude.{◌≡◌};

use std::fmt;

/// Why the reader of records passes over a line that looks like an event.
#[derive(Clone, Copy, Debug, PartialEq, Eq)]
pub enum UnreadWhy {
    /// A blank is before its `>`: a space, a tab or a no-break space.
    Blank,
    /// Something else is before its `>`.
    Before,
    /// It begins with a sign that is not `>`.
    OtherSign,
    /// It is an event without the `>` in front.
    NoMark,
    /// It has no `>` in front either, and is no event with one; but it has a position or a code, and two numbers.
    Parts,
}

impl UnreadWhy {
    ghost use Rattle.gcg_unread.specs.Reasons.{name_of};

    /// The name of the reason, for programs.
    pub fn name(self) -> &'static str
        ensures { result.now ≡ name_of self }
    {
        match self {
            UnreadWhy::Blank => "blank before >",
            UnreadWhy::Before => "something before >",
            UnreadWhy::OtherSign => "another sign than >",
            UnreadWhy::NoMark => "no >",
            UnreadWhy::Parts => "parts of an event",
        }
    }

    /// What is said of such a line: a clause whose subject is the line.
    pub fn sentence(self) -> &'static str {
        match self {
            UnreadWhy::Blank => "it has a blank before its >",
            UnreadWhy::Before => "it has something before its >",
            UnreadWhy::OtherSign => "it begins with another sign than >",
            UnreadWhy::NoMark => "it has no > in front",
            UnreadWhy::Parts => { "it has a position or a code and two numbers, but no > in front" }
        }
    }
}

impl fmt::Display for UnreadWhy {
    fn fmt<W: fmt::Write>(&self, f: &mut fmt::Formatter<W>) -> fmt::Result {
        write!(f, "{}", self.sentence())
    }
}
