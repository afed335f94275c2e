//! What is amiss with the fields of an event line of a draft.

/// Why the fields after a colon are not those of an event, whatever numbers follow them.
#[derive(Clone, Copy, Debug, PartialEq, Eq)]
pub enum Amiss {
    /// There is neither a position nor a code: there is no field, or only a rack.
    NoEvent,
    /// A position has no word after it.
    NoWord,
    /// A challenge or a penalty has no score. The rules allow several, so it has to be written.
    NoScore,
    /// There are more than two fields after the word or the code.
    TooMany,
}
