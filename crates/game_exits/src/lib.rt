//! How the program ends: the exit status of each verdict, and what follows after an audit, an explanation and the lines of an archive.
//!
//! Exit statuses: 0 legal or done, 1 illegal, 2 unsettled, 3 bad input, 4 a device or memory, 64 the command line.
#![tactic(auto)]

mod archives;
mod audits;
mod cases;
mod exits;

pub use archives::exit_of_answer;
pub use audits::exit_of_audit;
pub use cases::exit_of_case;
pub use exits::Exit;
