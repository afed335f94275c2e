//! Inputs that a command would lose, since its output is the same file.

use cli_args::{Asked, GameFiles, GameRequest, Request, STANDARD_INPUT, STANDARD_OUTPUT_NAME};
use io_files::is_same_file;
use reply_requests::Task;
use std::rt::Runtime;

/// The file that standard input may be.
const STANDARD_INPUT_FILE: &str = "/dev/stdin";

/// What help calls the first input of a command that is the same file as its output, if there is one.
pub fn lost_input<R: Runtime>(rt: &R, request: &Request<'_>) -> Option<&'static str> {
    match request {
        Request::Game { files, request, .. } => lost_of_game(rt, files, *request),
        Request::Build { words, out } => first_lost(rt, out, &[("WORDS", source(words.name))]),
        Request::Convert { lexicon, out, .. } => first_lost(rt, out, &[("LEXICON", *lexicon)]),
        Request::Index { lines, out } => first_lost(rt, out, &[("LINES", source(lines))]),
        _ => None,
    }
}

/// What help calls the first file of a game that is the same as an output.
fn lost_of_game<R: Runtime>(
    rt: &R,
    files: &GameFiles<'_>,
    request: GameRequest<'_>,
) -> Option<&'static str> {
    let out = request.out?;
    let (first, second) = match request.asked {
        Asked::WithAnother { second, .. } => ("SHEET1", second),
        Asked::OfOne(Task::Fill { .. }) => ("DRAFT", ""),
        Asked::OfOne(_) => ("GAME", ""),
    };
    let inputs = [
        ("the FILE of --rules", files.rules.unwrap_or("")),
        ("WORDS", source(files.pair.words.name)),
        ("LEXICON", files.pair.lexicon),
        (first, source(files.game)),
        ("SHEET2", source(second)),
    ];
    first_lost(rt, out, &inputs)
}

/// The file that is read for an input of this name: standard input may be a file too.
pub(crate) fn source(name: &str) -> &str {
    if name == STANDARD_INPUT {
        STANDARD_INPUT_FILE
    } else {
        name
    }
}

/// The first of these inputs that is the same file as an output.
fn first_lost<R: Runtime>(
    rt: &R,
    out: &str,
    inputs: &[(&'static str, &str)],
) -> Option<&'static str> {
    if out == STANDARD_OUTPUT_NAME {
        return None;
    }
    for (shown, name) in inputs {
        if is_same_file(rt, name, out) {
            return Some(*shown);
        }
    }
    None
}
