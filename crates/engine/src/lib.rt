//! The engine of the referee: it reads its inputs, judges the game by the rules, and writes the report.
//!
//! [`run`], [`run_build`], [`run_check`], [`run_convert`], [`run_top`], [`run_top_before`], [`run_tidy`] and [`run_board`] are the calls that the
//! program makes, or [`run_ruled`], [`run_top_ruled`], [`run_top_before_ruled`] and [`run_board_ruled`] if it is given a rules text; [`run_settled`]
//! and [`run_settled_ruled`] search for a deal. The contract of [`run`] is the theorem of the whole, from the bytes of the inputs to the bytes of the
//! output.
//!
//! They are made of stages, which are in `engine_stages`; other calls can be made of these too. [`ask`] is the way in: it reads rules, a
//! word list and its lexicon, and then asks a [`Question`]. [`run_question`] asks a [`GameQuestion`], and writes what is decided: [`Judging`],
//! [`BestPlays`] and [`TurnPlays`] are such questions. [`decide_by_pair`] asks one about one game of many by the same pair.
//!
//! An answer on a record is made of stages too. [`play_through`] goes from a record and a list to what passed, or to the first event that
//! is not allowed; [`try_racks`] goes from what passed to what is found of its racks only by the deal of the rule of completion, and
//! [`settle_racks`] to what is found by a search too; and [`legal_report`] goes from what passed to its report.
#![tactic(auto)]

mod asking;
mod best_plays;
mod boards;
mod building;
mod checking;
mod converting;
mod judging;
mod laws;
mod legal_reports;
mod running;
mod tidying;
mod top_before;
mod topping;
mod turn_plays;

pub use asking::run_question;
pub use best_plays::BestPlays;
pub use boards::{place_asked, run_board, run_board_ruled};
pub use building::run_build;
pub use checking::run_check;
pub use converting::run_convert;
pub use engine_stages::{
    Answer, AskedGame, Decision, Earlier, GameFault, GameQuestion, Given, KnownRules, LexiconFault,
    Question, RulesInput, RulesSource, RunFault, Verdict, ask, decide_by_pair, fault_text, finish,
    game_from, list_from, pair_file, read_lexicon, read_list, read_record, read_rules, record_from,
    rules_from,
};
pub use game_deal::{RackFinding, RackTrial, settle_racks, try_racks};
pub use game_report::MOST_PLAYS;
pub use game_turns::{Passed, play_through};
pub use judging::{Judging, found_by};
pub use laws::{
    law_of_conversions, law_of_findings, law_of_illegal, law_of_legal, law_of_legal_games,
    law_of_plain_games, law_of_ruled_games, law_of_settled_games, law_of_undealt_games,
};
pub use legal_reports::legal_report;
pub use running::{run, run_ruled, run_settled, run_settled_ruled};
pub use tidying::run_tidy;
pub use top_before::{run_top_before, run_top_before_ruled};
pub use topping::{run_top, run_top_ruled};
pub use turn_plays::{TurnPlays, rack_asked, shown_rack};
