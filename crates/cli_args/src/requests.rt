//! What a command line asks for.

use crate::archives::{Archive, archive_of};
use crate::commands::{Asks, GameCommand, asks_of, command};
use crate::files::{
    GameFiles, PairFiles, STANDARD_INPUT, WordsFile, game_files, pair_files, words_file,
};
use crate::tasks::{GameRequest, game_request_of};
use clap::error::ErrorKind;
use clap::{ArgMatches, Error};
use lex_file::Format;
use std::alloc::{AllocError, Global};

/// What the command line asks for. Files are given by their names, a rack by its tiles.
#[derive(Drop)]
pub enum Request<'a> {
    /// To answer about the game of a record; `json` asks for an object.
    Game {
        files: GameFiles<'a>,
        request: GameRequest<'a>,
        json: bool,
    },
    /// To judge many games, and to write a line for each.
    Archive(Archive<'a>),
    /// To write the index of the pages that lines of archives name to the file `out`.
    Index {
        lines: &'a str,
        out: &'a str,
    },
    /// To write the lexicon of a word list to the file `out`.
    Build {
        words: WordsFile<'a>,
        out: &'a str,
    },
    /// To compare a lexicon with a word list; `json` asks for an object.
    Check {
        json: bool,
        pair: PairFiles<'a>,
    },
    /// To write a lexicon in a format to the file `out`.
    Convert {
        format: Format,
        lexicon: &'a str,
        out: &'a str,
    },
    /// To write the normal form of a record.
    Tidy {
        game: &'a str,
    },
    /// To write the board of a record, or of a draft if `draft` says so, before a line if one is named; `json` asks for an object.
    Board {
        rules: Option<&'a str>,
        before: Option<u32>,
        game: &'a str,
        draft: bool,
        json: bool,
    },
    /// To answer requests by rules and a word list with its lexicon.
    Serve {
        rules: Option<&'a str>,
        pair: PairFiles<'a>,
    },
    /// To say whether words are acceptable, all together or each.
    Word {
        pair: PairFiles<'a>,
        each: bool,
        words: Vec<&'a str>,
    },
    /// To write the English rules text.
    Rules,
}

/// Parses the arguments of a command line, the program's name first.
///
/// # Errors
///
/// `OutOfMemory` if memory was refused. Each other kind is a mistake in the arguments or a request for help, with
/// its text.
pub fn parse_arguments<'a>(alloc: Global, arguments: &'a [String]) -> Result<Request<'a>, Error> {
    let matches = command(alloc)?.try_get_matches_from(arguments)?;
    match request_in(alloc, &matches)? {
        Some(request) => Ok(request),
        None => Err(mistake(alloc, "a command with its names is needed")),
    }
}

/// What the matches of a parse ask for: there is always something, since every argument is required.
fn request_in<'a>(alloc: Global, matches: &ArgMatches<'a>) -> Result<Option<Request<'a>>, Error> {
    let Some((name, names)) = matches.subcommand() else {
        return Ok(None);
    };
    let Some(asks) = asks_of(name) else {
        return Ok(None);
    };
    if reads_twice(asks, names) {
        return Err(mistake(alloc, "standard input can be read only once"));
    }
    Ok(request_of(asks, names, several(alloc, names)?))
}

/// An error of a command line that the program found itself.
pub fn mistake(alloc: Global, text: &str) -> Error {
    match command(alloc) {
        Ok(mut command) => match command.error(ErrorKind::InvalidValue, text) {
            Ok(error) => error,
            Err(refused) => Error::from(refused),
        },
        Err(refused) => Error::from(refused),
    }
}

/// Whether more than one of the names in a command line is that of standard input. `serve` reads its requests from there.
fn reads_twice(asks: Asks, names: &ArgMatches<'_>) -> bool {
    let requests: usize = if matches!(asks, Asks::Serve) { 1 } else { 0 };
    let times = [
        "WORDS", "GAME", "SHEET1", "SHEET2", "DRAFT", "names", "skip", "LINES",
    ]
    .iter()
    .map(|id| times_read(names, id))
    .fold(requests, |sum, times: usize| sum.saturating_add(times));
    times > 1
}

/// How many of the values of an argument are the name of standard input.
fn times_read(names: &ArgMatches<'_>, id: &str) -> usize {
    names
        .get_strs(id)
        .unwrap_or(&[])
        .iter()
        .filter(|name| **name == STANDARD_INPUT)
        .count()
}

/// The values of the argument of a command that may have many: words, or records.
fn several<'a>(alloc: Global, names: &ArgMatches<'a>) -> Result<Vec<&'a str>, AllocError> {
    let values = names.get_strs("WORD").or(names.get_strs("GAME"));
    Vec::from_slice(alloc, values.unwrap_or(&[]))
}

/// What the matches of a command ask for, the values of an argument that may have many apart.
fn request_of<'a>(
    asks: Asks,
    names: &ArgMatches<'a>,
    several: Vec<&'a str>,
) -> Option<Request<'a>> {
    match asks {
        Asks::Game(command) => request_about_game(command, names),
        Asks::Archive => Some(Request::Archive(archive_of(names, several)?)),
        Asks::Index => Some(Request::Index {
            lines: names.get_str("LINES")?,
            out: names.get_str("OUT")?,
        }),
        Asks::Build => Some(Request::Build {
            words: words_file(names)?,
            out: names.get_str("OUT")?,
        }),
        Asks::Check => Some(Request::Check {
            json: names.get_flag("json"),
            pair: pair_files(names)?,
        }),
        Asks::Convert => conversion_of(names),
        Asks::Tidy => Some(Request::Tidy {
            game: names.get_str("GAME")?,
        }),
        Asks::Board => board_of(names),
        Asks::Serve => Some(Request::Serve {
            rules: names.get_str("rules"),
            pair: pair_files(names)?,
        }),
        Asks::Word => word_of(names, several),
        Asks::Rules => Some(Request::Rules),
    }
}

/// What the matches of a command about the game of a record ask for.
fn request_about_game<'a>(command: GameCommand, names: &ArgMatches<'a>) -> Option<Request<'a>> {
    Some(Request::Game {
        files: game_files(names)?,
        request: game_request_of(command, names)?,
        json: names.get_flag("json"),
    })
}

/// What the matches of `convert` ask for.
fn conversion_of<'a>(names: &ArgMatches<'a>) -> Option<Request<'a>> {
    let format = match names.get_str("FORMAT")? {
        "gad1" => Format::Gad1,
        "gad2" => Format::Gad2,
        _ => return None,
    };
    Some(Request::Convert {
        format,
        lexicon: names.get_str("LEXICON")?,
        out: names.get_str("OUT")?,
    })
}

/// What the matches of `board` ask for.
fn board_of<'a>(names: &ArgMatches<'a>) -> Option<Request<'a>> {
    Some(Request::Board {
        rules: names.get_str("rules"),
        before: names.get_one::<u32>("before"),
        game: names.get_str("GAME")?,
        draft: names.get_flag("draft"),
        json: names.get_flag("json"),
    })
}

/// What the matches of `word` ask for.
fn word_of<'a>(names: &ArgMatches<'a>, words: Vec<&'a str>) -> Option<Request<'a>> {
    let pair = pair_files(names)?;
    Some(Request::Word {
        pair,
        each: names.get_flag("each"),
        words,
    })
}
