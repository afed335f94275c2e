//! A sheet annotated: after each turn a note with its best play, and after the faulty line of an illegal game why it is refused.
//!
//! [`annotated_sheet`] makes the notes, and its contract says what they say: the [`AnnotatedSheet`] has them as plain data. [`annotated_text`] writes the
//! sheet with them and computes nothing. Its contract says that the text is the sheet with notes put in, so that by [`law_of_notes`] it gives the
//! same record.
//!
//! [`law_of_notes`]: gcg_notes::law_of_notes
#![tactic(auto)]

mod next_plays;
mod notes;
mod sheets;
mod texts;

pub use sheets::{AnnotatedSheet, EventNote, annotated_sheet};
pub use texts::annotated_text;
