//! The files of a command: how they are opened, read and written, and what is said of one that failed or is bad.
//!
//! An input keeps why a read of it failed, and the bytes that show what it is: a [`Hint`] says by these what may help a person, besides the line that says
//! that the input is bad. An output is written whole or not at all, and not over an input ([`lost_input`], [`input_under_pages`]).
#![tactic(auto)]

mod advice;
mod digesting;
mod files;
mod folders;
mod hints;
mod inputs;
mod objects;
mod overwrites;
mod reporting;
mod run_inputs;
mod sources;
mod troubles;

pub use advice::{advise_bad_record, advise_no_game, advise_unread, has_game, is_record};
pub use digesting::Digesting;
pub use files::{
    InputFile, Outlet, STANDARD_ERROR, STANDARD_OUTPUT, UsedOutput, end_out, given_up, open,
    open_out, shown_out, unopened, used, used_rules, used_source, used_words, verdict_of, watched,
    write_out, write_whole_file,
};
pub use folders::is_folder;
pub use hints::{Hint, Known};
pub use inputs::{
    Digests, GivenFiles, Inputs, LexiconFile, Reported, RulesFile, digests_of, known_words,
    open_inputs, open_lexicon, open_rules, refuse, rules_front, write,
};
pub use objects::{refuse_in_json, reported_in_json};
pub use overwrites::lost_input;
pub use reporting::{give_hint, repeat_fault};
pub use run_inputs::{RunInputs, input_under_pages};
pub use sources::{
    SheetFile, Source, Words, open_sheet, open_source, open_words, report_others, shown,
};
pub use troubles::Trouble;
