//! How many steps a search takes: about as many as the events that it goes over.
ghost use Rattle.std.specs.Prelude.{◌≡◌, None, IsFalse};

/// Adds steps to those that were taken.
pub(crate) fn spend(spent: &mut u64, steps: usize) {
    *spent = spent.saturating_add(steps as u64);
}

/// Whether so many steps were taken that the search ends. Without a limit it does not.
pub(crate) fn is_over(limit: Option<u64>, spent: u64) -> bool
    ensures { limit ≡ None → IsFalse result }
{
    match limit {
        Some(limit) => spent >= limit,
        None => false,
    }
}
