//! Tests of JSON trees and of their texts.
//!
//! They are here, and not in the crates that they test, since a crate with tests of its own is proved twice.
#![tactic(auto)]

#[cfg(test)]
mod tests;
