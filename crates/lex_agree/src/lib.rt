//! Whether a compiled lexicon has exactly the rotated paths of a word list, decided without sorting.
//!
//! A word of n letters has n rotated paths, and the paths of different words are different. So a lexicon that has all of them, and
//! no more strings than the words have letters, has no others. That it has them follows from the path of each word whose front is
//! its first letter, and from a law of the whole lexicon: wherever a letter comes after a mark, the lexicon also has the string
//! with that letter turned over to the front. A walk over all fronts of the lexicon checks that by its nodes: what follows the
//! letter must be the node after the mark of the longer front. In a lexicon that stores equal nodes once this always holds; if it
//! does not hold, the answer is no, and says nothing.
#![tactic(auto)]

mod agreeing;
mod counting;
mod firsts;
mod kept;
mod letters;
mod steps;
mod tables;
mod turning;

pub use agreeing::agree;
pub use letters::letter_count;
pub use steps::label_of;
