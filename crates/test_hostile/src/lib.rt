//! The tests of hostile use. They make the calls of the engine, for jobs that were worked by hand, over inputs and outputs in
//! memory.
#![tactic(auto)]

#[cfg(test)]
mod tests;
