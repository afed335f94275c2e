//! What a record says in words besides its events: its title, its event, its lexicon, the notes that go with its events, and how the names of people
//! in it are read as text: by the encoding that the record states, or as UTF-8.
//!
//! None of it is judged: it is what the writer of the record says, in the bytes of the record.
#![tactic(auto)]

mod encodings;
mod notes;
mod pragmas;
mod texts;
mod words;

pub use encodings::Encoding;
pub use notes::Note;
pub use words::{RecordWords, words_of};
