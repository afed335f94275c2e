//! A search that finds a deal for the steps of a game, or a proof that there is none.
//!
//! The search is not trusted: its deals are checked by [`fits`](deal_steps::fits), and its proofs by
//! [`rules_out`](deal_cuts::rules_out). It deals the tiles as a player would, by what the lines to come ask for, and then swaps
//! tiles along their ways through the game until no place lacks one. If every swap causes another lack, the places that can be
//! reached at little cost show of which tiles there are too many.
#![tactic(auto)]

mod arcs;
mod cutting;
mod handing;
mod mending;
mod moves;
mod nets;
mod paths;
mod picking;
mod piles;
mod settling;

pub use settling::{Settling, settle, settle_within};
