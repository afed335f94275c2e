//! The command line of the program: the commands that it knows, what help says of each, and what a line of arguments asks for.
#![tactic(auto)]

mod archives;
mod arguments;
mod commands;
mod files;
mod requests;
mod tasks;

pub use archives::{Archive, ArchiveNames, Progressing};
pub use commands::{MOST_PLAYS, PROGRAM, PROGRAM_NAME, SHORT_VERSION};
pub use files::{GameFiles, PairFiles, STANDARD_INPUT, STANDARD_OUTPUT_NAME, WordsFile};
pub use requests::{Request, mistake, parse_arguments};
pub use tasks::{Asked, GameRequest};
