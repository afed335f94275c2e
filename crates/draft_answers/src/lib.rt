//! What is found of a draft: the record that it makes, and which of its written numbers are wrong.
//!
//! [`fill_draft`] reads a draft, corrects its events, puts the right numbers in the place of those that are missing and audits the sheet that this
//! makes. [`out_text`] is the record, and [`next_line`] says what the line after the last one is about. [`draft_sheet`] gives the sheet alone,
//! and [`board_sheet`] the one for a board, which needs no words.
#![tactic(auto)]

mod carrying;
mod counting;
mod cutting;
mod faults;
mod filled;
mod filling;
mod given;
mod laws;
mod making;
mod next;
mod outs;
mod reading;

pub use counting::{PutIn, put_in};
pub use faults::DraftFault;
pub use filled::{FilledDraft, fill_draft};
pub use filling::has_missing;
pub use laws::law_of_filling;
pub use making::{DraftSheet, board_sheet, draft_sheet};
pub use next::{DraftNext, NextLine, NextSide, next_line};
pub use outs::{is_out, out_text};
pub use reading::draft_in;
