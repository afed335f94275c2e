//! Several slips in one record: pairs and chains of changes after which it is a legal game once its numbers are corrected.
//!
//! [`pairs`] takes the cheapest changes with which the rules allow the first refused event too, so that the fault moves on, and finds the first repairs of
//! the record that each of them makes. The search for these changes is not complete, and nothing is claimed about it: what is said of a pair is proved of the
//! pair itself.
//!
//! [`find_chain`] goes on step by step: the cheapest such change that concerns lines of the sheet, then the cheapest one of the record that it makes, until
//! one change is a repair. Nothing says that no other chain does it: what is said of a chain is proved of the chain itself. [`later_spot`] says where a change
//! is in the file that is made after others.
#![tactic(auto)]

mod chains;
mod finding;
mod first_steps;
mod found;
mod heads;
mod listed;
mod made;
mod news;
mod ordering;
mod spots;

pub use chains::{Chain, find_chain};
pub use finding::pairs;
pub use found::{Head, Pair, Pairs};
pub use spots::later_spot;
