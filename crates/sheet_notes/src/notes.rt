//! The note of an event, in one line.

use crate::sheets::EventNote;
use explain_parts::say;
use game_answers::ScoredPlay;
use game_bests::{BestPlay, TurnBest};
use game_turns::SpelledWord;
use gcg_write::play_text;
use ref_play::Notation;
use std::alloc::AllocError;

/// Appends a play and its score.
fn push_play(note: &mut Vec<u8>, written: &Notation, score: i32) -> Result<(), AllocError> {
    if play_text(written.at, written.dir, written.word.as_slice(), note).is_err() {
        return Err(AllocError);
    }
    say!(note; " ", score)
}

/// Appends how many points more than its turn a best play would have given, or that it would have given as many.
fn push_more(note: &mut Vec<u8>, more: i64) -> Result<(), AllocError> {
    if more < 0 {
        return Ok(());
    }
    if more == 0 {
        return say!(note; ", equal");
    }
    say!(note; ", ", more, " more")
}

/// Appends the best play, its score, and how many points more it would have given if it would not have given fewer.
fn push_best(note: &mut Vec<u8>, best: &BestPlay) -> Result<(), AllocError> {
    say!(note; "best ")?;
    push_play(note, &best.written, best.score)?;
    push_more(note, best.more)
}

/// Appends the next best plays, if there are any.
fn push_next(note: &mut Vec<u8>, plays: &[ScoredPlay]) -> Result<(), AllocError> {
    let mut before = "; then ";
    for play in plays {
        say!(note; before)?;
        push_play(note, &play.written, play.score)?;
        before = ", ";
    }
    Ok(())
}

/// Appends what is said of the best play of an event.
fn push_turn(note: &mut Vec<u8>, best: &TurnBest) -> Result<(), AllocError> {
    match best {
        TurnBest::NoTurn | TurnBest::NotShown => Ok(()),
        TurnBest::NoPlay => say!(note; "no play is possible"),
        TurnBest::Best(best) => push_best(note, best),
    }
}

/// Appends words, each after a space.
fn push_words(note: &mut Vec<u8>, words: &[SpelledWord]) -> Result<(), AllocError> {
    for word in words {
        say!(note; " ", word.letters.as_slice())?;
    }
    Ok(())
}

/// Appends the words of a play that are not in the list, after what is said of the best play.
fn push_unlisted(
    note: &mut Vec<u8>,
    words: &[SpelledWord],
    is_first: bool,
) -> Result<(), AllocError> {
    if words.is_empty() {
        return Ok(());
    }
    if !is_first {
        say!(note; "; ")?;
    }
    say!(note; "not in the list:")?;
    push_words(note, words)
}

/// Appends the note of an event, which may be empty: its best play, the next best ones, and its words that are not in the list.
pub fn push_note(text: &mut Vec<u8>, note: &EventNote) -> Result<(), AllocError> {
    let start = text.len();
    if let Some(best) = &note.best {
        push_turn(text, best)?;
    }
    push_next(text, note.next.as_slice())?;
    let is_first = text.len() == start;
    push_unlisted(text, note.unlisted.as_slice(), is_first)
}

/// Appends sentences, each of which has a line, as one line.
pub fn push_sentences(notes: &mut Vec<u8>, sentences: &[u8]) -> Result<(), AllocError> {
    for byte in sentences {
        notes.push(if *byte == b'\n' { b' ' } else { *byte })?;
    }
    Ok(())
}
