//! The answer to a request as a value: what the command of its name finds in the same bytes.
//!
//! [`reply_to`] gives the [`Reply`] to a [`Request`](reply_requests::Request) by rules and a word list with its lexicon. Its contract says what the
//! reply is, by only these and the request, in the words of the command's own contract. [`law_of_records_as_drafts`] says that a record which is
//! read as a draft is answered as a record.
#![tactic(auto)]

mod annotated;
mod audited;
mod compared;
mod draft_facts;
mod drafted;
mod exits;
mod explained;
mod games;
mod judges;
mod laws;
mod on_drafts;
mod paged;
mod plays;
mod read_sheets;
mod records;
mod repaired;
mod replies;
mod tidying;
mod words;

pub use audited::AuditedSheet;
pub use compared::{BadSheet, BothCompared, SheetsFound};
pub use drafted::FilledSheet;
pub use exits::exit_of_reply;
pub use explained::ExplainedCase;
pub use judges::Judges;
pub use laws::law_of_records_as_drafts;
pub use read_sheets::{JudgedSheet, ShownSheet};
pub use repaired::RepairedCase;
pub use replies::{Reply, board_reply, reply_to};
pub use words::Ruled;
