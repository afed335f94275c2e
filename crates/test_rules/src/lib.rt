//! Tests of rules as a text.
//!
//! They are here, and not in the crate that they test, since a crate with tests of its own is proved twice.
#![tactic(auto)]

#[cfg(test)]
mod tests;
