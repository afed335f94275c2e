//! The deal that is tried for the steps of a game, by a fixed rule.
//!
//! The lines of a record state some of the tiles that the players held. The rule fills in the rest: each draw gives a player what
//! the player's later lines ask for, and then tiles that the other player's lines do not ask for. If a line then asks for a tile
//! that is not on its rack, the rule gives no deal.
#![tactic(auto)]

mod dealing;
mod drawing;
mod hands;
mod picking;
mod wanting;

pub use dealing::complete_steps;
