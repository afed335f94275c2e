//! The commands that answer with a reply: `explain`, `audit`, `fill`, `repair`, `annotate`, `page` and `compare`, in words or as a JSON object; `word`; and
//! those that have an object in addition to the text of a call: `judge`, `top`, `board` and `check`.
//!
//! They open the files that are named, make a call of `reply_calls`, and say on standard error what helps in addition to the answer.
#![tactic(auto)]

mod advice;
mod answering;
mod asked;
mod boards;
mod comparing;
mod forms;
mod kept_files;
mod pairs;
mod reports;
mod sheets;
mod tops;

pub use answering::answer_game;
pub use boards::{board_in_json, board_of_draft};
pub use pairs::{check_in_json, rule_on_words};
