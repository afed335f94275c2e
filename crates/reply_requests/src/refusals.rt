//! Why a line is not a request.

use crate::commands::Command;
use std::fmt;

/// Why a line is not a request. Its text is what the answer says.
#[derive(Clone, Copy, Debug, PartialEq, Eq)]
pub enum Refusal<'a> {
    /// The line has too many bytes.
    TooLong,
    /// The line is not JSON, or is JSON that nests too deeply or has a number too large for a float.
    NoJson,
    /// The line is JSON but not an object.
    NoObject,
    /// The object has no `do`.
    NoCommand,
    /// The `do` of the object is not a text.
    NoName,
    /// There is no command of this name.
    NoSuchCommand(&'a str),
    /// The `id` of the object is neither a text nor a number.
    NoId,
    /// The command has no member of this name.
    NoSuchKey(Command, &'a str),
    /// The command needs the member of this name.
    Missing(Command, &'static str),
    /// The member of this name is not a text.
    NoText(&'static str),
    /// The member of this name is neither true nor false.
    NoFlag(&'static str),
    /// The member of this name is not a number between these two.
    NoNumber(&'static str, u32, u32),
    /// The member of this name is not a list of texts.
    NoTexts(&'static str),
    /// Memory was refused.
    NoMemory,
}

impl fmt::Display for Refusal<'_> {
    fn fmt<W: fmt::Write>(&self, f: &mut fmt::Formatter<W>) -> fmt::Result {
        match *self {
            Refusal::TooLong => write!(f, "the line has more than 4194304 bytes"),
            Refusal::NoJson => write!(f, "the line is not JSON"),
            Refusal::NoObject => write!(f, "the line is not a JSON object"),
            Refusal::NoCommand => write!(f, "the object has no do"),
            Refusal::NoName => write!(f, "do is not a text"),
            Refusal::NoSuchCommand(name) => write!(f, "there is no command {name:?}"),
            Refusal::NoId => write!(f, "id is neither a text nor a number"),
            Refusal::NoSuchKey(command, key) => {
                let name = command.name();
                write!(f, "{name} has no {key:?}")
            }
            Refusal::Missing(command, key) => {
                let name = command.name();
                write!(f, "{name} needs {key}")
            }
            Refusal::NoText(key) => write!(f, "{key} is not a text"),
            Refusal::NoFlag(key) => write!(f, "{key} is neither true nor false"),
            Refusal::NoNumber(key, least, most) => {
                write!(f, "{key} is not a number from {least} to {most}")
            }
            Refusal::NoTexts(key) => write!(f, "{key} is not a list of texts"),
            Refusal::NoMemory => write!(f, "no memory"),
        }
    }
}
