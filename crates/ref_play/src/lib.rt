//! Plays: what a text names, what is legal, which words a play forms and what it scores.
#![tactic(auto)]

mod faults;
mod judging;
mod laws;
mod legality;
mod notations;
mod placed;
mod plays;
mod runs;
mod scoring;
mod spelling;
mod texts;
mod writing;

pub use faults::PlayFault;
pub use judging::{apply, formed, judge, undo};
pub use laws::{
    law_of_before, law_of_directions, law_of_legality, law_of_lines, law_of_notations, law_of_runs,
    law_of_undoing,
};
pub use legality::covers;
pub use notations::Notation;
pub use placed::Placed;
pub use plays::{Play, RACK};
pub use runs::Run;
pub use scoring::{bonus_score, points_on, run_score, score, words_factor};
pub use spelling::{Word, Words, words};
pub use texts::{along, from_text, placement_of, shortened, symbol_fits};
pub use writing::{before, notation, symbol_by};
