//! What a step answers about the event that it took.
/// What an accepted event was.
#[derive(Clone, Copy, Debug, PartialEq, Eq)]
pub struct Turn {
    /// Whether it was a turn: a play that stands, a play taken back, an exchange, or a pass, except for the one that is accepted
    /// after a player is out.
    pub counted: bool,
    /// The number of tiles that its player had before it.
    pub rack_size: usize,
    /// Whether it was a play that stands.
    pub stands: bool,
}
