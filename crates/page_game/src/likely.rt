//! The likely repair of a faulty record, as its page shows it.

use crate::boards::push_board;
use crate::showing::Shown;
use page_pieces::{PageText, Piece};
use std::alloc::AllocError;

/// Appends the words of the likely repair, if there are some.
pub(crate) fn push_likely_words(
    page: &mut PageText,
    shown: &Shown<'_>,
    words: &[u8],
) -> Result<(), AllocError> {
    if words.is_empty() {
        return Ok(());
    }
    page.push(&[
        Piece::Markup("<p class=\"why likely\">"),
        Piece::Recorded(words.trim_ascii_end(), shown.encoding()),
        Piece::Markup("</p>\n"),
    ])
}

/// Appends the board of the likely repair, if there is one.
pub(crate) fn push_likely_board(page: &mut PageText, shown: &Shown<'_>) -> Result<(), AllocError> {
    let Some(board) = &shown.contents.repaired else {
        return Ok(());
    };
    page.push(&[Piece::Markup("<h2>The board with the likely repair</h2>\n")])?;
    push_board(page, shown.rules, board)
}
