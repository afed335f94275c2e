//! What is known of the steps before those that a cut rules out.

/// What is known about the steps without a deal except the last of them.
#[derive(Clone, Copy, Debug, PartialEq, Eq)]
pub enum Earlier {
    /// Some racks fit them.
    Dealt,
    /// Nothing: they were not tried, or neither a deal nor a cut was found for them within the budget.
    Unsettled,
}
