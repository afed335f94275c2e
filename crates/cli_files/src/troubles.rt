//! Why the program could not finish.
ghost use Rattle.std.specs.Prelude.{◌≡◌};

use engine_stages::RunFault;
use io_watch::Reason;
use std::fmt;

/// Why the program could not finish. Its text is what standard error gets.
#[derive(Clone, Copy)]
pub enum Trouble<'a> {
    /// A read of the input of this name failed.
    ReadFailed(&'a str, Reason),
    /// A write to the output of this name failed, or the output took no byte of it.
    WriteFailed(&'a str, Reason),
    /// Memory was refused.
    NoMemory,
    /// The file of this name could not be opened.
    CannotOpen(&'a str, Reason),
}

impl fmt::Display for Trouble<'_> {
    fn fmt<W: fmt::Write>(&self, f: &mut fmt::Formatter<W>) -> fmt::Result {
        match self {
            Trouble::ReadFailed(name, reason) => write!(f, "read failed: {name}{reason}"),
            Trouble::WriteFailed(name, reason) => write!(f, "write failed: {name}{reason}"),
            Trouble::NoMemory => write!(f, "no memory"),
            Trouble::CannotOpen(name, reason) => write!(f, "cannot open {name}{reason}"),
        }
    }
}

impl<'a> Trouble<'a> {
    ghost use Rattle.cli_files.specs.Troubles.{trouble_of};

    /// Why the program could not finish, if a call gave up. `name` is that of the input or output that failed, if one did, and
    /// `reason` why it did.
    pub fn of(fault: RunFault, name: &'a str, reason: Reason) -> Trouble<'a>
        ensures { result ≡ trouble_of fault name.entry reason }
    {
        match fault {
            RunFault::ReadFailed => Trouble::ReadFailed(name, reason),
            RunFault::WriteFailed => Trouble::WriteFailed(name, reason),
            RunFault::NoMemory => Trouble::NoMemory,
        }
    }
}
