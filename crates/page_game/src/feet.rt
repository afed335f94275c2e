//! The foot of a page: what it was made by.

use page_answers::Maker;
use page_pieces::{PageText, Piece};
use std::alloc::AllocError;

/// A byte as two digits from 0 to f.
fn digits_of(byte: u8) -> [u8; 2] {
    let digits = b"0123456789abcdef";
    [
        digits[usize::from(byte / 16)],
        digits[usize::from(byte % 16)],
    ]
}

/// Appends a digest.
fn push_digest(page: &mut PageText, digest: &[u8; 32]) -> Result<(), AllocError> {
    page.push(&[Piece::Markup("<code>")])?;
    for byte in digest {
        page.push(&[Piece::Text(&digits_of(*byte))])?;
    }
    page.push(&[Piece::Markup("</code>")])
}

/// Appends the rules by which the page was made.
fn push_rules(page: &mut PageText, rules: Option<&[u8; 32]>) -> Result<(), AllocError> {
    match rules {
        None => page.push(&[Piece::Markup("Rules: the English game.")]),
        Some(digest) => {
            page.push(&[Piece::Markup("Rules: a text with the SHA-256 ")])?;
            push_digest(page, digest)?;
            page.push(&[Piece::Markup(".")])
        }
    }
}

/// Appends the legend of the boards, and what the page was made by.
pub fn push_foot(page: &mut PageText, maker: &Maker) -> Result<(), AllocError> {
    page.push(&[
        Piece::Markup("<footer>\n<p>Word list: "),
        Piece::Many(maker.words),
        Piece::Markup(" words, SHA-256 "),
    ])?;
    push_digest(page, &maker.list)?;
    page.push(&[Piece::Markup(". ")])?;
    push_rules(page, maker.rules.as_ref())?;
    page.push(&[
        Piece::Markup(" Made by "),
        Piece::Text(maker.program.as_bytes()),
        Piece::Markup(".</p>\n</footer>\n"),
    ])
}
