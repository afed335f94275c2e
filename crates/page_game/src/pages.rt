//! The page of a game.

use crate::banners::push_banner;
use crate::boards::push_board;
use crate::feet::push_foot;
use crate::heads::push_head;
use crate::likely::push_likely_board;
use crate::panels::{push_bag, push_first};
use crate::rows::push_rows;
use crate::showing::{Shown, faulty_line};
use page_pieces::{PageText, Piece};
use std::alloc::AllocError;

/// What the signs of a board mean.
const KEY: &str =
    "<p class=\"key\">TW triple word, DW double word, TL triple letter, DL double letter. A small, slanted letter is a blank. New tiles are framed. In the sheet, tiles that were on the board already stand in brackets.</p>\n</section>\n";

/// Appends the board at the end, or at the faulty line with its play marked.
fn push_end(page: &mut PageText, shown: &Shown<'_>) -> Result<(), AllocError> {
    match faulty_line(&shown.finding) {
        None => page.push(&[Piece::Markup(
            "<section class=\"end\" id=\"end\">\n<h2>The board at the end</h2>\n",
        )])?,
        Some(line) => page.push(&[
            Piece::Markup("<section class=\"end\" id=\"end\">\n<h2>The board at line "),
            Piece::Number(i64::from(line)),
            Piece::Markup("</h2>\n"),
        ])?,
    }
    push_board(page, shown.rules, &shown.sheet().shown)?;
    push_first(page, shown)?;
    push_last_bag(page, shown)?;
    push_likely_board(page, shown)?;
    page.push(&[Piece::Markup(KEY)])
}

/// Appends the tiles that are not on the last board, if that is the one in view.
fn push_last_bag(page: &mut PageText, shown: &Shown<'_>) -> Result<(), AllocError> {
    if faulty_line(&shown.finding).is_some() {
        return Ok(());
    }
    match shown.sheet().positions.as_slice() {
        [.., last] => push_bag(page, last),
        [] => Ok(()),
    }
}

/// Appends the page of a game: what it shows, with the sentences that explain the verdict (`reason`), those of the likely repair (`likely`), and who
/// is ahead by the right numbers (`lead`), if that is not what the sheet says.
///
/// It fails only if memory runs out.
pub fn push_page(
    page: &mut PageText,
    shown: &Shown<'_>,
    reason: &[u8],
    likely: &[u8],
    lead: &[u8],
) -> Result<(), AllocError> {
    push_head(page, shown)?;
    let notes = push_banner(page, shown, reason, likely, lead)?;
    page.push(&[Piece::Markup("<main>\n")])?;
    push_end(page, shown)?;
    page.push(&[Piece::Markup("<section class=\"events\">\n<h2>The sheet</h2>\n")])?;
    push_rows(page, shown, notes)?;
    page.push(&[Piece::Markup("</section>\n</main>\n")])?;
    push_foot(page, shown.maker)?;
    page.push(&[Piece::Markup("</body>\n</html>\n")])
}
