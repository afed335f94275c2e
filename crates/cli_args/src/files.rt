//! The files that a command line names.

use crate::commands::{FIRST_FIELD, SKIP_OTHERS};
use clap::ArgMatches;

/// The name of standard input on the command line.
pub const STANDARD_INPUT: &str = "-";

/// The name of standard output on the command line.
pub const STANDARD_OUTPUT_NAME: &str = "-";

/// A word list, and how its lines are read.
#[derive(Clone, Copy)]
pub struct WordsFile<'a> {
    /// Its name.
    pub name: &'a str,
    /// Whether the first field of each line is read, and not the whole line.
    pub first_field: bool,
    /// Whether lines that are not words are passed over.
    pub skip_others: bool,
}

/// The names of the files of a word list and of its lexicon.
#[derive(Clone, Copy)]
pub struct PairFiles<'a> {
    /// The word list.
    pub words: WordsFile<'a>,
    /// The lexicon of the words.
    pub lexicon: &'a str,
}

/// The names of the files of a game.
#[derive(Clone, Copy)]
pub struct GameFiles<'a> {
    /// The rules text; without one the rules are the English ones.
    pub rules: Option<&'a str>,
    /// The word list and its lexicon.
    pub pair: PairFiles<'a>,
    /// The record, or the draft of one.
    pub game: &'a str,
}

/// The word list that a command names.
pub fn words_file<'a>(names: &ArgMatches<'a>) -> Option<WordsFile<'a>> {
    Some(WordsFile {
        name: names.get_str("WORDS")?,
        first_field: names.get_flag(FIRST_FIELD),
        skip_others: names.get_flag(SKIP_OTHERS),
    })
}

/// The word list and its lexicon that a command names.
pub fn pair_files<'a>(names: &ArgMatches<'a>) -> Option<PairFiles<'a>> {
    Some(PairFiles {
        words: words_file(names)?,
        lexicon: names.get_str("LEXICON")?,
    })
}

/// The files of a game that a command names, or of the first of two sheets of it, or of a draft.
pub fn game_files<'a>(names: &ArgMatches<'a>) -> Option<GameFiles<'a>> {
    Some(GameFiles {
        rules: names.get_str("rules"),
        pair: pair_files(names)?,
        game: names
            .get_str("GAME")
            .or(names.get_str("SHEET1"))
            .or(names.get_str("DRAFT"))?,
    })
}
