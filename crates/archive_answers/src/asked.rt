//! What is asked of each game of an archive.

use page_answers::Maker;

/// What is asked of each game of an archive besides its line.
#[derive(Clone, Copy)]
pub struct Asked<'m> {
    /// Whether its likely repair is asked for.
    pub likely: bool,
    /// What its page is made by, if its page is asked for.
    pub page: Option<&'m Maker>,
}
