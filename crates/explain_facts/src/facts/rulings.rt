//! How the rules rule on an event.

/// Whether the rules allow an event, where nothing else is said of it.
#[derive(Drop)]
pub enum RulingFact {
    /// The rules do not allow an event before this one, so this one was not judged.
    NotJudged {
        /// The line of the first event that they do not allow.
        refused: u32,
    },
    /// The rules allow the event.
    Allowed,
}
