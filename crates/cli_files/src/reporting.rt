//! What standard error says besides the line that says that an input is bad.

use crate::hints::{Hint, Known};
use cli_args::PROGRAM_NAME;
use std::rt::Runtime;
use std::str;

/// Says what may help with a fault, besides its line, if that is known.
pub fn give_hint<R: Runtime>(rt: &R, line: &[u8], known: &Known<'_>) {
    if let Some(hint) = Hint::of(line, known) {
        let _ = rt.eprintln(format_args!("{PROGRAM_NAME}: {hint}"));
    }
}

/// Repeats the line that says what is wrong with the input with this name in messages, which is not on standard output, and says what may
/// help. The line ends in an LF.
pub fn repeat_fault<R: Runtime>(rt: &R, name: &str, line: &[u8], known: &Known<'_>) {
    if let Ok(line) = str::from_utf8(line) {
        let _ = rt.eprint(format_args!("{PROGRAM_NAME}: {name}: {line}"));
    }
    give_hint(rt, line, known);
}
