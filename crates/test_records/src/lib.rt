//! Tests of the crates that read, write and judge records: tiles, boards, plays, the reader, the normal form, the turns and the best
//! plays.
//!
//! They are here, and not in the crates that they test, since a crate with tests of its own is proved a second time with
//! them.
#![tactic(auto)]

#[cfg(test)]
mod tests;
