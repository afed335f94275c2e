//! A play with another tile in one place: tiles that are not on the rack, one tile that was read as another, and a blank as a letter.

use crate::spelling::push_words;
use explain_facts::ReadingFact;
use explain_parts::say;
use game_turns::SpelledWord;
use ref_board::Square;
use ref_tiles::{Counts, Kind};
use std::alloc::AllocError;

/// Appends the score that a play has, and the one that is written, if it is another one.
fn push_scores(text: &mut Vec<u8>, score: i32, written: i32) -> Result<(), AllocError> {
    if score == written {
        return say!(text; score, ", as is written.\n");
    }
    say!(text; score, ", but ", written, " is written.\n")
}

/// Appends that a play has the written score with a letter as a blank, or a blank as a letter.
fn push_as_blank(
    text: &mut Vec<u8>,
    square: Square,
    letter: u8,
    score: i32,
) -> Result<(), AllocError> {
    let what = if letter.is_ascii_lowercase() {
        "a letter and not a blank"
    } else {
        "a blank"
    };
    say!(text; "With the ", letter.to_ascii_uppercase(), " on ", square, " as ", what, " the play scores ", score, ", as is written.\n")
}

/// Appends how many tiles of a kind are played.
fn push_played(text: &mut Vec<u8>, kind: Kind, played: usize) -> Result<(), AllocError> {
    match kind {
        Kind::Blank if played == 1 => say!(text; "A blank is played"),
        Kind::Blank => say!(text; (played, "blank"), " are played"),
        Kind::Letter(_) if played == 1 => say!(text; kind, " is played"),
        Kind::Letter(_) => say!(text; (played, "tile"), " ", kind, " are played"),
    }
}

/// Appends that a play uses more tiles of a kind than the rack has.
fn push_not_on_rack(
    text: &mut Vec<u8>,
    kind: Kind,
    played: usize,
    has: usize,
    rack: &Counts,
) -> Result<(), AllocError> {
    push_played(text, kind, played)?;
    if has == 0 {
        return say!(text; ", but the rack ", rack, " has none.\n");
    }
    say!(text; ", but the rack ", rack, " has only ", has, ".\n")
}

/// Appends a tile by the letter that it shows, or that it is a blank.
fn push_tile(text: &mut Vec<u8>, letter: u8, blank: &'static str) -> Result<(), AllocError> {
    if letter.is_ascii_lowercase() {
        return say!(text; blank);
    }
    say!(text; letter)
}

/// Appends what a play is with another tile on a square.
fn push_misread(
    text: &mut Vec<u8>,
    square: Square,
    letter: u8,
    read: u8,
    words: &[SpelledWord],
) -> Result<(), AllocError> {
    say!(text; "With ")?;
    push_tile(text, read, "a blank")?;
    say!(text; " for ")?;
    push_tile(text, letter, "the blank")?;
    say!(text; " on ", square, " the play makes ")?;
    push_words(text, words)?;
    say!(text; ", and scores ")
}

/// Appends a fact about a play with another tile in one place.
pub fn push_reading_fact(text: &mut Vec<u8>, fact: &ReadingFact) -> Result<(), AllocError> {
    match fact {
        ReadingFact::AsBlank {
            square,
            letter,
            score,
            ..
        } => push_as_blank(text, *square, *letter, *score),
        ReadingFact::NotOnRack {
            kind,
            played,
            has,
            rack,
        } => push_not_on_rack(text, *kind, *played, *has, rack),
        ReadingFact::Misread {
            square,
            letter,
            read,
            words,
            score,
            written,
        } => {
            push_misread(text, *square, *letter, *read, words.as_slice())?;
            push_scores(text, *score, *written)
        }
    }
}
