//! Tiles, counts of tiles, and the rules by which a game is judged, as values and as a text.
#![tactic(auto)]

mod assembling;
mod counting;
mod drafts;
mod english;
mod english_text;
mod kinds;
mod laws;
mod letters;
mod parts;
mod premiums;
mod rulebook;
mod rules_faults;
mod rules_reading;
mod statements;
mod symbols;
mod tiles;

pub use counting::{Counts, KINDS};
pub use english::{ENGLISH, english_rules};
pub use english_text::ENGLISH_TEXT;
pub use kinds::Kind;
pub use laws::{law_of_kinds, law_of_symbols};
pub use letters::Letter;
pub use parts::RuleParts;
pub use premiums::Premium;
pub use rulebook::{Rules, SIDE, SQUARES};
pub use rules_faults::{RulesFault, RulesWhy};
pub use rules_reading::MAX_RULES_BYTES;
pub use statements::row_of_digits;
pub use symbols::Symbol;
pub use tiles::Tile;
