//! Why the system refused to open, to read or to write a file.

use std::fmt;
use std::io::{Error, ErrorKind};

/// The system's error number for a device without space.
const NO_SPACE: i32 = 28;

/// Why the system refused something. Its text is what follows the name in a message: nothing if no reason is known.
#[derive(Clone, Copy, Debug, PartialEq, Eq)]
pub enum Reason {
    /// No reason is known.
    Unknown,
    /// There is no file of the name, or no folder in which it could be.
    NoFile,
    /// The file, or its folder, may not be used in this way.
    NotPermitted,
    /// The file is a folder.
    Folder,
    /// The name leads from link to link, and never to a file.
    Links,
    /// The device has no space left.
    NoSpace,
    /// Another reason, by the number that the system has for it.
    Number(i32),
}

impl Reason {
    /// Why something failed with this error.
    pub fn of(error: &Error) -> Reason {
        match error.kind() {
            ErrorKind::NotFound => Reason::NoFile,
            ErrorKind::PermissionDenied => Reason::NotPermitted,
            ErrorKind::IsADirectory => Reason::Folder,
            ErrorKind::FilesystemLoop => Reason::Links,
            ErrorKind::StorageFull => Reason::NoSpace,
            _ => Reason::of_number(error.raw_os_error()),
        }
    }

    /// Why something failed, by the number that the system gave, if it gave one.
    fn of_number(number: Option<i32>) -> Reason {
        match number {
            Some(number) => Reason::Number(number),
            None => Reason::Unknown,
        }
    }
}

impl fmt::Display for Reason {
    fn fmt<W: fmt::Write>(&self, f: &mut fmt::Formatter<W>) -> fmt::Result {
        match self {
            Reason::Unknown => Ok(()),
            Reason::NoFile => write!(f, ": no such file"),
            Reason::NotPermitted => write!(f, ": permission denied"),
            Reason::Folder => write!(f, ": is a folder"),
            Reason::Links => write!(f, ": too many links"),
            Reason::NoSpace => write!(f, ": no space left, error {NO_SPACE} of the system"),
            Reason::Number(number) => write!(f, ": error {number} of the system"),
        }
    }
}
