//! What the page of a case shows, as plain data.
//!
//! [`paged_case`] makes it: a [`PagedCase`] has the case itself, its likely repair, what the page is made by and, if the text is a record, what the
//! page shows of it ([`PageContents`]): the score sheet, the verdict with what explains it, the words of the record, and the board with the likely
//! repair. Its contract says what each of these is. [`likely_asked`] finds the likely repair, if it is asked for. `page_words` writes the page from it and computes nothing.
#![tactic(auto)]

mod cases;
mod contents;
mod likely;
mod makers;
mod repaired;
mod sheets;

pub use cases::{PagedCase, paged_case};
pub use contents::PageContents;
pub use likely::likely_asked;
pub use makers::Maker;
pub use sheets::PageSheet;
