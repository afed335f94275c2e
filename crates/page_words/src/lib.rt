//! The page of a case as HTML: its parts (`page_game`), with what it says in sentences.
//!
//! [`page_text`] writes it from the value that `page_answers` makes, and computes nothing. The sentences are those of `explain`, of `repair` and of
//! `audit`.
#![tactic(auto)]

mod pages;
mod sentences;

pub use pages::{page_text, push_paged};
