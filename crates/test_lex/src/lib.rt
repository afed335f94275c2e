//! The tests of the crates of word lists and compiled lexicons.
//!
//! They are here, and not in the crates that they test, since a crate with tests is proved twice.
#![tactic(auto)]

#[cfg(test)]
mod tests;
