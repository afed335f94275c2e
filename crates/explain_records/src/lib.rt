//! Why a text is not a record, in plain words: what is wrong with the line of its fault, and what the line lacks; what is wrong with its other lines;
//! and which lines are not read although they look like events.
#![tactic(auto)]

mod fields;
mod missing;
mod record_faults;
mod unread;

pub use missing::push_missing;
pub use record_faults::push_record_fault;
pub use unread::{
    MOST_NAMED, other_faults, push_fault_sentences, push_other_faults, push_time_racks,
    push_unread_lines,
};
