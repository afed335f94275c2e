//! What a page consists of, and the names of the pages of many games.
//!
//! A [`PageText`] grows only by [`Piece`]s. Markup is part of the program; text of a record, numbers, tiles and plays are kinds of their own, and go
//! through [`push_text`]: no byte of what it writes is `<`, `>`, `"` or `'`, each `&` begins one of five names, and a reader that undoes the names has
//! the text again ([`law_of_texts`]). So the markup of a page is that of its pieces of markup, whatever the names of a record are: [`law_of_pieces`].
//!
//! The name of a page depends only on the name of its game: `r1/final.gcg` has the page `r1/final.html`. So runs that go on, and runs at
//! the same time, give the same pages. [`law_of_page_names`] says that no two games share one.
#![tactic(auto)]

mod escaping;
mod fillings;
mod laws;
mod naming;
mod pieces;
mod texts;

pub use escaping::push_text;
pub use laws::{law_of_page_names, law_of_pieces, law_of_texts};
pub use naming::push_page_name;
pub use pieces::Piece;
pub use texts::PageText;
