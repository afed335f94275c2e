//! What is found of the right events of a record.

/// What is found of a record in which the rules allow every event.
#[derive(Clone, Copy)]
pub(crate) enum Outcome {
    /// Some deal yields every rack.
    Game,
    /// No deal does.
    NoGame,
    /// Neither a deal nor a proof that there is none was found.
    Unsettled,
}
