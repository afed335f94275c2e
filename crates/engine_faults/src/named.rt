//! A fault by its name.

use crate::names::FaultName;
use ref_tiles::Kind;

/// A fault by its name, with what a report has after it.
#[derive(Clone, Copy, Debug, PartialEq, Eq)]
pub struct NamedFault {
    /// The name.
    pub name: FaultName,
    /// The number that was expected, if there is one.
    pub expected: Option<i32>,
    /// The kind of tile that is short, if there is one.
    pub kind: Option<Kind>,
}

impl NamedFault {
    ghost use Rattle.std.specs.Prelude.{◌≡◌};
    ghost use Rattle.engine_faults.specs.Named.{bare, expecting, short_of};

    /// A fault of this name, with nothing after it.
    pub(crate) fn bare(name: FaultName) -> NamedFault
        ensures { result ≡ bare name }
    {
        NamedFault {
            name,
            expected: None,
            kind: None,
        }
    }

    /// A fault of this name, with the number that was expected.
    pub(crate) fn expecting(name: FaultName, expected: i32) -> NamedFault
        ensures { result ≡ expecting name expected }
    {
        NamedFault {
            name,
            expected: Some(expected),
            kind: None,
        }
    }

    /// A fault of this name, with the kind of tile that is short.
    pub(crate) fn short_of(name: FaultName, kind: Kind) -> NamedFault
        ensures { result ≡ short_of name kind }
    {
        NamedFault {
            name,
            expected: None,
            kind: Some(kind),
        }
    }
}
