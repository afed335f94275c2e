//! The calls that answer what is asked: they read rules, the words of a list with their lexicon and the sheets that it is about, and write what is found.
//!
//! What is asked is an [`Asking`], which gives the reply on the bytes of the sheets. What is found is that reply, or that an earlier input is bad, and a
//! [`Rendering`] makes the bytes that are written of it. The contracts say that these are written, and no others, and that the status is that of what is
//! found. [`answer_sheets`] reads any number of sheets; [`answer_by_rules`] reads one, and no words. The calls know nothing of the replies themselves, so
//! that they are proved for any.
#![tactic(auto)]

mod asking;
mod calls;
mod ended;
mod finding;
mod outlets;
mod printed;
mod questions;
mod writing;

pub use asking::{Asking, AskingByRules, Rendering};
pub use calls::{answer_by_rules, answer_sheets};
pub use ended::Ended;
pub use outlets::{KeepFailed, Outlet};
pub use printed::Printed;
