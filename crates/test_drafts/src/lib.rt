//! Tests of drafts: what their lines lack, their faults, the record that a draft makes, and what the next line is about.
//!
//! They are here, and not in the crates that they test, since a crate with tests of its own is proved a second time with
//! them.
#![tactic(auto)]

#[cfg(test)]
mod tests;
