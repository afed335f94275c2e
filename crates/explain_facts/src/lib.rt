//! Facts about an event that explain what the rules say about it. Each is a value with its numbers, squares, tiles, players and lines.
#![tactic(auto)]

mod challenges;
mod clashes;
mod deals;
mod facts;
mod moving;
mod orders;
mod play_faults;
mod racks;
mod readings;
mod rule_faults;
mod scenes;
mod scores;
mod tiles;
mod totals;
mod turns;
mod wholes;

pub use deals::{dealt_to, no_deal};
pub use facts::{
    ChallengeFact, ClashLine, DealFact, ExchangeLine, Fact, GameFact, KindLine, Leaving, OrderFact,
    PlayFact, RackFact, RackLine, RackPart, ReadingFact, RulingFact, ScoreFact, TileFact,
    TotalFact, TurnFact, UnlistedPlay,
};
pub use racks::{left_over, rack_too_big, tiles_short};
pub use readings::report_rack_slip;
pub use rule_faults::rule_fault_facts;
pub use scenes::Scene;
pub use wholes::push_notes;
