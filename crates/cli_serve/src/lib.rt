//! The command that answers requests until standard input ends: `serve`.
//!
//! It reads a line, parses it as a request (`reply_requests`), answers it by the inputs that were read once (`reply_answers`), and writes the answer as one
//! line before it reads the next.
#![tactic(auto)]

mod answering;
mod lines;
mod reporting;
mod serving;

pub use serving::serve;
