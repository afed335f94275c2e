//! What the audit of a sheet answers and prints.
//!
//! [`answer_audit`] audits a sheet and gives the answer as a value, which has the event of each wrong number. [`push_audit`] writes a line for each
//! wrong number, the verdict line of the corrected record, and who is ahead. [`is_written`] says whether the corrected record is to be written, and
//! [`corrected_text`] is its text. [`audit_of_wrong`] and [`push_last_line`] are for those who say something else of a sheet with a wrong number.
#![tactic(auto)]

mod answers;
mod corrected;
mod kinds;
mod leads;
mod lines;
mod reported;
mod standing;
mod wrong;

pub use answers::{AuditAnswer, answer_audit};
pub use corrected::corrected_text;
pub use lines::push_audit;
pub use reported::ReportedNumber;
pub use standing::{is_corrected, is_written};
pub use wrong::{audit_of_wrong, push_last_line};
