//! What is requested, as plain data: by the members of a JSON object in a line to a service, or by a command line.
//!
//! [`id_in`] gives the id for the answer to an object, and [`request_in`] what the object requests. A [`Refusal`] says why a line is not
//! a request. A [`Task`] is what a command line asks of one game; [`Task::of_game`] makes the request once the text of the game is read.
#![tactic(auto)]

mod commands;
mod members;
mod refusals;
mod requests;
mod tasks;

pub use members::id_in;
pub use refusals::Refusal;
pub use requests::{MOST_ASKED, Request, request_in};
pub use tasks::Task;
