//! What a line says of the likely repair of a game.

/// What a line says of the likely repair of a game, if repairs are looked for.
#[derive(Drop)]
pub struct LikelyFields {
    /// The change, in words; none if the game is not illegal, or if no repair is likelier than all others by far.
    pub change: Option<String>,
    /// How many numbers of the sheet are right with the change, and how many there are, such as `90 of 90`.
    pub numbers_right: Option<String>,
}

impl LikelyFields {
    /// There is no likely repair.
    pub const NONE: LikelyFields = LikelyFields {
        change: None,
        numbers_right: None,
    };
}
