//! The stages of a call: it reads its inputs in order until one is bad, decides, and writes the report.
//!
//! [`ask`] is the way in. It reads rules if they are not known, a word list and its lexicon, and then asks a [`Question`], which
//! may read more. A question about the game of a record is a [`GameQuestion`]; [`decide_by_pair`] asks it about one game of many.
//!
//! [`ask`] is made of stages; other calls can be made of these too. [`read_list`], [`read_rules`] and [`read_record`] read an input and give
//! what it means, or the decision that it is bad. [`read_lexicon`] reads a file, and [`pair_file`] makes a pair of it and a list. [`finish`]
//! writes what was decided.
//!
//! A [`Verdict`] is what the referee answers, a [`Decision`] a verdict with its report, and a [`RunFault`] why there is none. The lines of
//! reports are here too, except those of the events of a legal game.
#![tactic(auto)]

mod decisions;
mod doors;
mod faults;
mod input_faults;
mod lexicons;
mod meanings;
mod questions;
mod records;
mod reports;
mod rules_sources;
mod transfers;
mod verdicts;

pub use deal_cuts::Earlier;
pub use decisions::Decision;
pub use doors::ask;
pub use faults::RunFault;
pub use input_faults::{InputFault, input_line, input_verdict};
pub use lexicons::{LexiconFault, bad_file, open_within, pair_file, read_lexicon};
pub use meanings::{
    game_from, list_from, read_list, read_record, read_rules, record_from, rules_from,
};
pub use questions::{Answer, Given, Question};
pub use records::{AskedGame, GameQuestion, decide_by_pair};
pub use reports::{
    bad_file_line, bad_line_line, bad_list_line, bad_rack_line, bad_record_line, bad_rules_line,
    fault_text, illegal_line, legal_line, ok_line, too_many_arcs_line, unsettled_line,
};
pub use rules_sources::{KnownRules, RulesInput, RulesSource};
pub use transfers::{finish, read_text};
pub use verdicts::{GameFault, Verdict};
