//! The sum of a play: what each of its words scores.

use explain_clues::{PlayedSquare, PlayedWord, ScoredPlay};
use game_board::tile_mark;
use page_pieces::{PageText, Piece};
use std::alloc::AllocError;

/// Appends the factor of a number, if that is not 1.
fn push_factor(page: &mut PageText, factor: u32) -> Result<(), AllocError> {
    if factor == 1 {
        return Ok(());
    }
    page.push(&[Piece::Markup(" &times; "), Piece::Number(i64::from(factor))])
}

/// Appends a square of a word: the letter that its tile shows, its points, and their factor.
fn push_square(
    page: &mut PageText,
    before: &'static str,
    square: &PlayedSquare,
) -> Result<(), AllocError> {
    let Some(tile) = square.cell else {
        return Ok(());
    };
    let letter = [tile_mark(&tile)];
    page.push(&[
        Piece::Markup(before),
        Piece::Text(&letter),
        Piece::Markup(" "),
        Piece::Number(i64::from(square.points)),
    ])?;
    push_factor(page, square.factor)
}

/// Appends the squares of a word, with a plus between them.
fn push_squares(page: &mut PageText, squares: &[PlayedSquare]) -> Result<(), AllocError> {
    let mut before = "";
    for square in squares {
        push_square(page, before, square)?;
        before = " + ";
    }
    Ok(())
}

/// Appends a word, its squares and what it scores.
fn push_word(page: &mut PageText, word: &PlayedWord) -> Result<(), AllocError> {
    page.push(&[
        Piece::Markup("<li><b>"),
        Piece::Text(word.letters.as_slice()),
        Piece::Markup(if word.is_listed {
            "</b> "
        } else {
            "</b> (not in the word list) "
        }),
    ])?;
    push_squares(page, word.squares.as_slice())?;
    page.push(&[
        Piece::Markup(" = "),
        Piece::Number(i64::from(word.letters_sum)),
    ])?;
    if word.factor > 1 {
        push_factor(page, word.factor)?;
        page.push(&[Piece::Markup(" = "), Piece::Number(i64::from(word.score))])?;
    }
    page.push(&[Piece::Markup("</li>\n")])
}

/// Appends the bonus for seven tiles, if there is one.
fn push_bonus(page: &mut PageText, bonus: Option<u32>) -> Result<(), AllocError> {
    match bonus {
        Some(bonus) => page.push(&[
            Piece::Markup("<li>bonus for seven tiles: "),
            Piece::Number(i64::from(bonus)),
            Piece::Markup("</li>\n"),
        ]),
        None => Ok(()),
    }
}

/// Appends the sum of a play: each word with its squares, the bonus, and what the play scores.
pub fn push_sum(page: &mut PageText, play: &ScoredPlay) -> Result<(), AllocError> {
    page.push(&[Piece::Markup("<ul class=\"sum\">\n")])?;
    for word in play.words.iter() {
        push_word(page, word)?;
    }
    push_bonus(page, play.bonus)?;
    page.push(&[
        Piece::Markup("<li>score of the play: <b>"),
        Piece::Number(i64::from(play.score)),
        Piece::Markup("</b></li>\n</ul>\n"),
    ])
}
