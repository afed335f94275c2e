//! The page of a game: one HTML file with its verdict, its sheet, and the board after each event; and the index of the pages of an archive.
//!
//! [`push_page`] writes it from what `page_answers` has in a value, by way of a [`Shown`], with the sentences that its caller makes of it. A page has
//! no script and loads nothing: links choose the row whose board is in view. It grows only by the pieces of [`page_pieces`], so what it has of a record
//! cannot be markup. No contract says how it is laid out; `oracle/comparisons/compare_pages.py` tests that.
#![tactic(auto)]

mod banners;
mod boards;
mod counts;
mod faults;
mod feet;
mod heads;
mod indexes;
mod likely;
mod lines;
mod orders;
mod pages;
mod panels;
mod plays;
mod rows;
mod showing;
mod styles;
mod sums;

pub use indexes::{Index, IndexPlayer, IndexRow};
pub use pages::push_page;
pub use showing::Shown;
