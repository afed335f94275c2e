//! The numbers that an event line of a draft lacks.

/// The numbers that an event line of a draft lacks.
#[derive(Clone, Copy, Debug, PartialEq, Eq)]
pub enum Missing {
    /// The score and the total are there.
    Nothing,
    /// The total is missing.
    Total,
    /// The score and the total are missing.
    Both,
}
