//! Cuts.
use ref_tiles::KINDS;

/// Some of the three places where tiles in play can be.
#[derive(Clone, Copy, Debug)]
pub struct Places {
    /// Whether the bag is one of them.
    pub bag: bool,
    /// Whether the first player's rack is.
    pub first: bool,
    /// Whether the second player's rack is.
    pub second: bool,
}

/// A proof that no deal exists, which [`rules_out`](crate::rules_out) checks.
#[derive(Debug, Drop)]
pub struct Cut {
    /// The kinds of tiles that are counted, A to Z and then blanks.
    pub kinds: [bool; KINDS],
    /// The places where they are counted: before the first step, before the second and so on, up to a step before which there are
    /// more of them than there can be.
    pub places: Vec<Places>,
}
