//! The worked games, lexicons and records, judged, explained, built, checked, converted, tidied and shown over memory by the calls of the
//! engine, and tests of the devices that they are read from and written to, of the reader of first fields and of the example of a caller.
//!
//! They are here, and not in the crates that they test, since a crate with tests of its own is proved a second time with
//! them.
#![tactic(auto)]

#[cfg(test)]
mod tests;
