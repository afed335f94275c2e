//! The lines of a legal game's report: each event as the record has it, the best play of each turn, and the words of a play
//! that are not in the list; and the lines of the best plays on the board after a record.
#![tactic(auto)]

mod best_plays;
mod event_lines;
mod replaying;
mod top_plays;

pub use best_plays::{full_rack, is_judged};
pub use event_lines::push_event_lines;
pub use replaying::follow_event;
pub use top_plays::{MOST_PLAYS, best_lines, top_report};
