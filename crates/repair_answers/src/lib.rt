//! What `repair` answers of a record: its verdict and, if it is illegal or no record, the first repairs.
//!
//! [`answer_repairs`] makes the answer of the case of a record, and [`answer_draft`] that of the sheet that a draft makes, on which a number that is missing
//! counts nowhere. It is plain data: text and objects are made only from it.
#![tactic(auto)]

mod alike;
mod amounts;
mod answers;
mod bad_records;
mod chains;
mod choices;
mod drafts;
mod evidence;
mod given;
mod likely;
mod lists;
mod no_change;
mod numbers_alone;
mod order;
mod sheet_amounts;
mod sheet_choices;
mod sheet_repair;
mod sheets;
mod singles;
mod trades;

pub use amounts::amount_repair;
pub use answers::{Faulty, RepairAnswer, answer_repairs};
pub use bad_records::{LineRepairs, SameCost, choice_of_line};
pub use choices::{Choice, choice_of};
pub use drafts::answer_draft;
pub use evidence::Reported;
pub use likely::{Likely, likely_in_case};
pub use numbers_alone::NumbersAlone;
pub use order::{Item, items_of};
pub use sheet_amounts::{SheetAmount, amount_on_sheet};
pub use sheet_repair::SheetRepair;
