//! Tests of the crates of deals.
//!
//! They are here, and not in the crates that they test, since a crate with tests of its own is proved twice.
#![tactic(auto)]

#[cfg(test)]
mod tests;
