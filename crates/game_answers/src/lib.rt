//! The judged game as a value: what `judge` finds of a record, as plain data whose contract says what it is.
//!
//! [`judge_game_with`] gives a [`JudgedGame`]: the verdict, and if the rules allow every event, an [`EventAnswer`] for each of them with its best play.
//! [`top_plays`] gives [`FoundPlays`], the best plays before a line, and [`shown_board`] a [`ShownBoard`]. The contract says of each field what it
//! is, by the state of the game at its place, and that the report that is written from these fields is the one that `judge` writes. So what is
//! written from the value, in whatever form, needs no engine and no record.
#![tactic(auto)]

mod answers;
mod boards;
mod copies;
mod games;
mod judging;
mod leaving;
mod letters;
mod plays;
mod tops;
mod verdicts;

pub use answers::EventAnswer;
pub use boards::{RowMarks, ShownBoard, shown_board};
pub use games::{JudgedGame, judge_game_with};
pub use leaving::GameAnswers;
pub use plays::{ScoredPlay, best_plays};
pub use tops::{FoundPlays, top_plays};
