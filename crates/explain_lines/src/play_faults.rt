//! What is wrong with the text or the placement of a play.

use explain_facts::PlayFact;
use explain_parts::say;
use ref_board::{Dir, Square};
use std::alloc::AllocError;

/// Appends that a play leaves the board.
fn push_off_board(
    text: &mut Vec<u8>,
    at: Square,
    dir: Dir,
    squares: usize,
    room: usize,
) -> Result<(), AllocError> {
    let line = match dir {
        Dir::Across => "row",
        Dir::Down => "column",
    };
    let are = if room == 1 { "is" } else { "are" };
    say!(text; "The play leaves the board: it covers ", squares, " squares, and from ", at, " to the end of the ", line)?;
    say!(text; " there ", are, " only ", room, ".\n")
}

/// Appends the tile directly before or after a play.
fn push_beside(
    text: &mut Vec<u8>,
    square: Square,
    letter: u8,
    side: &'static str,
) -> Result<(), AllocError> {
    say!(text; "The tile ", letter, " on ", square, " is directly ", side, " the play.\n")
}

/// Appends a fact about the text or the placement of a play.
pub fn push_play_fact(text: &mut Vec<u8>, fact: &PlayFact) -> Result<(), AllocError> {
    match fact {
        PlayFact::LeavesBoard {
            at,
            dir,
            squares,
            room,
        } => push_off_board(text, *at, *dir, *squares, *room),
        PlayFact::DotOnEmpty { square } =>
            say!(text; "The play has a dot on ", *square, ", as if a tile were there, but the square is empty.\n"),
        PlayFact::OtherLetter {
            square,
            written,
            shown,
        } =>
            say!(text; "The play has ", *written, " on ", *square, ", but the tile there shows ", *shown, ".\n"),
        PlayFact::NoNewTile =>
            say!(text; "Every square of the play already has a tile, so no tile is new.\n"),
        PlayFact::ManyTiles { tiles } =>
            say!(text; "The play puts down ", *tiles, " tiles, and a rack has 7 at most.\n"),
        PlayFact::TileBefore { square, letter } => push_beside(text, *square, *letter, "before"),
        PlayFact::TileAfter { square, letter } => push_beside(text, *square, *letter, "after"),
        PlayFact::NotWhole => say!(text; "The line has to name the whole word.\n"),
        PlayFact::MissesCentre =>
            say!(text; "The first play of a game has to cover 8H, and this one does not.\n"),
        PlayFact::TooShort => say!(text; "The play makes no word of two letters or more.\n"),
        PlayFact::Apart =>
            say!(text; "No tile of the play touches a tile that is already on the board.\n"),
    }
}
