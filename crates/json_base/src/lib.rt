//! What all JSON answers for programs have in common.
//!
//! A rendering takes a value and gives a tree of `json_trees`, whose contract says that it is exactly the object that `specs/` defines for the value, field by
//! field. It calls no engine, adds no numbers and looks at no record. Keys are stable: what is not known, or does not apply, is
//! null. Every object begins with `verdict`, `line` and `fault`, so that a program reads one form whatever happened: [`push_refusal`] writes that an input
//! is bad, and [`push_trouble`] why the program could not finish. Games and best plays are in `game_json`, audits and boards in `sheet_json`, explanations
//! in `explain_json`.
#![tactic(auto)]

mod fault_trees;
mod kinds;
mod names;
mod places;
mod players;
mod refusals;
mod values;
mod verdicts;

pub use fault_trees::{bare_fault_tree, game_fault_tree};
pub use kinds::{
    kind_direction_tree, kind_number_tree, kind_place_tree, kind_symbols_tree, kind_tiles_tree,
};
pub use names::{direction_of, kind_name, number_of};
pub use places::item_at;
pub use players::{players_array, standing_tree};
pub use refusals::{
    bad_record_tree, checked_tree, decision_tree, no_game_tree, push_refusal, push_trouble,
    refused_fields, refused_tree, trouble_tree,
};
pub use values::{
    given_tree, line_tree, place_tree, rack_tree, symbols_tree, tile_tree, tiles_tree, unread_array,
};
pub use verdicts::{
    ending_name, ending_tree, fault_line_tree, fault_tree, verdict_name, verdict_tree,
};
