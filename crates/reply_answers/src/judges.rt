//! What requests are answered by.

use lex_check::Checked;
use page_answers::Maker;
use ref_tiles::Rules;

/// The rules, the words and the maker by which requests are answered.
#[derive(Clone, Copy)]
pub struct Judges<'a> {
    /// The rules.
    pub rules: &'a Rules,
    /// The words and their lexicon.
    pub pair: &'a Checked<'a>,
    /// What pages are made by.
    pub maker: &'a Maker,
}
