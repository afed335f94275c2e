//! The words of a play, square by square.

use explain_clues::{PlayedSquare, PlayedWord, ScoredPlay};
use explain_parts::say;
use game_board::tile_mark;
use ref_tiles::Premium;
use std::alloc::AllocError;

/// Appends the words of a play: the squares and the sum of each, the bonus, and what the play scores.
pub fn push_play(text: &mut Vec<u8>, play: &ScoredPlay) -> Result<(), AllocError> {
    for word in play.words.iter() {
        push_word(text, word)?;
    }
    if let Some(bonus) = play.bonus {
        say!(text; "bonus for seven tiles: ", bonus as usize, "\n")?;
    }
    say!(text; "score of the play: ", play.score, "\n")
}

/// What comes before a letter of a word: a bracket where the letters that were on the board already begin or end.
fn bracket(before: bool, here: bool) -> &'static str {
    match (before, here) {
        (false, true) => "(",
        (true, false) => ")",
        (false, false) | (true, true) => "",
    }
}

/// Appends the letters of a word, those that were on the board already in brackets.
fn push_letters(text: &mut Vec<u8>, word: &PlayedWord) -> Result<(), AllocError> {
    let mut before = false;
    for (letter, square) in word.letters.iter().zip(word.squares.iter()) {
        let here = !square.is_new;
        say!(text; bracket(before, here), *letter)?;
        before = here;
    }
    say!(text; bracket(before, false))
}

/// Appends a word, its squares and its sum.
fn push_word(text: &mut Vec<u8>, word: &PlayedWord) -> Result<(), AllocError> {
    push_letters(text, word)?;
    let listed = if word.is_listed {
        ""
    } else {
        ", which is not in the word list"
    };
    say!(text; listed, "\n")?;
    for square in word.squares.iter() {
        push_square(text, square)?;
    }
    push_sum(text, word)
}

/// What is said of the premium that counts on a square.
fn premium_words(premium: Premium) -> &'static str {
    match premium {
        Premium::Plain => "",
        Premium::DoubleLetter => ", double letter",
        Premium::TripleLetter => ", triple letter",
        Premium::DoubleWord => ", double word",
        Premium::TripleWord => ", triple word",
    }
}

/// Appends a square of a word: its tile, the points and the premium.
fn push_square(text: &mut Vec<u8>, square: &PlayedSquare) -> Result<(), AllocError> {
    let Some(tile) = square.cell else {
        return Ok(());
    };
    say!(text; "  ", square.square, " ", tile_mark(&tile), " ", square.points as usize)?;
    if square.factor != 1 {
        say!(text; " x ", square.factor as usize, " = ", square.adds as usize)?;
    }
    let end = if square.is_new {
        ""
    } else {
        ", already on the board"
    };
    say!(text; premium_words(square.premium), end, "\n")
}

/// Appends the sum of a word.
fn push_sum(text: &mut Vec<u8>, word: &PlayedWord) -> Result<(), AllocError> {
    say!(text; "  sum ", word.letters_sum as usize)?;
    if word.factor > 1 {
        say!(text; " x ", word.factor as usize, " = ", word.score as usize)?;
    }
    say!(text; "\n")
}
