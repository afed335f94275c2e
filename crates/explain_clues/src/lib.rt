//! Facts about one line of a record, as values: the line as it is in its text, the words of a play with what each of their squares
//! adds, where a text does not agree with the board, where the same text has a score, and which turn a total leaves out; and what is shown of a
//! play: its words, square by square, with what they add up to, and the board before it, with its squares marked.
#![tactic(auto)]

mod boards;
mod laws;
mod lines;
mod plays;
mod spots;
mod texts;
mod totals;
mod words;

pub use boards::{ShownSquare, shown_board};
pub use laws::law_of_sums;
pub use lines::line_of;
pub use plays::{PlayedSquare, PlayedWord, PlayedWords, ScoredPlay, scored_play};
pub use spots::{Spot, scoring_spots};
pub use texts::{first_misfit, new_tiles};
pub use totals::latest_with;
pub use words::{ScoredWord, ScoredWords, WordSquare, scored_words};
