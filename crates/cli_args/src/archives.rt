//! The request of `archive`.

use crate::files::{PairFiles, pair_files};
use clap::ArgMatches;

/// Where the names of the games of an archive are.
#[derive(Drop)]
pub enum ArchiveNames<'a> {
    /// On the command line.
    Given(Vec<&'a str>),
    /// In the file of this name, or on standard input if it is `-`.
    Listed(&'a str),
}

impl<'a> ArchiveNames<'a> {
    /// The file that the names are read from.
    pub fn source(&self) -> &'a str {
        match self {
            ArchiveNames::Given(_) => "",
            ArchiveNames::Listed(name) => *name,
        }
    }
}

/// What the command line says of the progress of a run.
#[derive(Clone, Copy)]
pub enum Progressing {
    /// That it is to be shown.
    Shown,
    /// That it is not.
    Quiet,
    /// Nothing.
    Unsaid,
}

/// The games of an archive, and the rules and words to judge them by.
#[derive(Drop)]
pub struct Archive<'a> {
    /// The rules text; without one the rules are the English ones.
    pub rules: Option<&'a str>,
    /// The word list and its lexicon.
    pub pair: PairFiles<'a>,
    /// The names of the records.
    pub names: ArchiveNames<'a>,
    /// The byte that ends a name in a file of names.
    pub end: u8,
    /// The file of lines whose games are passed over.
    pub skip: Option<&'a str>,
    /// Whether the lines are JSON objects.
    pub json: bool,
    /// The folder for a page of each game, if pages are wanted.
    pub pages: Option<&'a str>,
    /// Whether each line has the likely repair of its game.
    pub repairs: bool,
    /// Whether to show how many games are done.
    pub progress: Progressing,
}

/// What the matches of `archive` ask for; `games` are the records that they name.
pub fn archive_of<'a>(names: &ArgMatches<'a>, games: Vec<&'a str>) -> Option<Archive<'a>> {
    let pair = pair_files(names)?;
    let games = match names.get_str("names") {
        Some(file) => ArchiveNames::Listed(file),
        None => ArchiveNames::Given(games),
    };
    Some(Archive {
        rules: names.get_str("rules"),
        pair,
        names: games,
        end: if names.get_flag("null") { 0 } else { b'\n' },
        skip: names.get_str("skip"),
        json: names.get_flag("json"),
        pages: names.get_str("pages"),
        repairs: names.get_flag("repairs"),
        progress: wanted_progress(names),
    })
}

/// What the command line says of the progress of a run.
fn wanted_progress(names: &ArgMatches<'_>) -> Progressing {
    if names.get_flag("progress") {
        Progressing::Shown
    } else if names.get_flag("quiet") {
        Progressing::Quiet
    } else {
        Progressing::Unsaid
    }
}
