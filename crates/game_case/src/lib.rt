//! The game of a record, opened and settled: what is found of it, with the walk over its events.
//!
//! [`open_case`] reads the record of one sheet and keeps its bytes, and [`audit_sheet`] corrects the numbers of a sheet first; each by rules, a word
//! list and its lexicon that were read before. [`try_passed`] and [`settle_passed`] say what is found of a record in which the rules allow every event.
#![tactic(auto)]

mod audits;
mod entries;
mod explains;
mod findings;
mod settling;
mod unlisted;

pub use audits::{Audit, audit_sheet};
pub use entries::Entry;
pub use explains::{Case, case_line, case_verdict, finding_line, open_case, verdict_in};
pub use findings::Finding;
pub use settling::{settle_passed, try_passed};
