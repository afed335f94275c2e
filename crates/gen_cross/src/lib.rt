//! Cross-sets: for each square and direction of play, the letters that may be put there, and the points beside it (Andrew Appel and
//! Guy Jacobson, The World's Fastest Scrabble Program, 1988).
#![tactic(auto)]

mod crosses;
mod laws;
mod masks;
mod renewals;
mod stretches;
mod values;

pub use crosses::Cross;
pub use laws::{law_of_crosses, law_of_renewing};
pub use masks::LETTERS;
