//! Tests of the crates that find plays: cross-sets, sinks, the generator and the best plays.
#![tactic(auto)]

#[cfg(test)]
mod tests;
