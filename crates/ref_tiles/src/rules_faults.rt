//! The faults of a rules text.
ghost use Rattle.std.specs.Prelude.{◌≡◌};

/// Why a text does not give rules, in the order in which the faults are checked.
#[derive(Clone, Copy, Debug, PartialEq, Eq)]
pub enum RulesWhy {
    /// The text has more than 65,536 bytes. This is checked before all else.
    TooLong,
    /// The first field of the line is not `tile`, `row` or the name of a parameter.
    Unknown,
    /// The line has more or fewer fields than its first one requires.
    Fields,
    /// The tile is not A to Z or `?`; or the row is not 1 to 15 in one or two digits; or its codes are not 15 of `.`,
    /// `d`, `t`, `D` and `T`.
    Name,
    /// A number is not 1 to 3 digits, or the points of `?` are not 0.
    Number,
    /// An earlier line is about the same tile, row or parameter.
    Twice,
    /// No line is about some tile, row or parameter. This is checked when no line has a fault.
    Missing,
    /// The numbers are outside the limits of [`Rules::checked`](crate::Rules::checked). This is checked last.
    Limits,
}

impl RulesWhy {
    ghost use Rattle.ref_tiles.specs.RulesFaults.{name_of};

    /// The name of the fault, as reports print it.
    pub fn name(&self) -> &'static str
        ensures { result.now ≡ name_of self.now }
    {
        match self {
            RulesWhy::TooLong => "TooLong",
            RulesWhy::Unknown => "Unknown",
            RulesWhy::Fields => "Fields",
            RulesWhy::Name => "Name",
            RulesWhy::Number => "Number",
            RulesWhy::Twice => "Twice",
            RulesWhy::Missing => "Missing",
            RulesWhy::Limits => "Limits",
        }
    }
}

/// The first fault of a rules text.
#[derive(Clone, Copy, Debug, PartialEq, Eq)]
pub struct RulesFault {
    /// The line of the fault, counted from 1; 0 for `TooLong`, `Missing` and `Limits`, which are not on a line.
    pub line: u32,
    /// What is wrong there.
    pub why: RulesWhy,
}
