//! A proof that no racks fit the steps of a game, and its check.
//!
//! A cut chooses kinds of tiles, and before each of the first steps some of the three places where tiles in play can be: the bag
//! and both racks. The sizes of the places, the tiles that the lines show and those that move give a least number of tiles of these
//! kinds in these places; if that is more than there can be, there is no deal.
#![tactic(auto)]

mod cuts;
mod earlier;
mod flows;
mod laws;
mod reported;
mod ruling;
mod splits;

pub use cuts::{Cut, Places};
pub use earlier::Earlier;
pub use laws::law_of_fronts;
pub use ruling::rules_out;
