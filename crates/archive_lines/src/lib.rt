//! The lines of an archive: what one says of a game, as plain data, and the two forms in which it is written.
//!
//! [`Fields`] is what a line says. [`push_tab_line`] writes it as fields separated by tabs, [`push_json_line`] as a JSON object with the same fields
//! by name, which a reader of JSON has again. A line has the field of the page of its game only if pages are made, and the two fields of its likely
//! repair only if repairs are looked for. The last field says how many lines of the record are not read. [`law_of_tab_lines`] says that a line has
//! exactly its fields, and [`LineRead`] is what its reader has.
//!
//! A field may be any text: it is written without a tab and without an end of line, and [`law_of_lines`] says that a reader of any such line gets
//! every field back.
#![tactic(auto)]

mod answers;
mod faults;
mod fields;
mod json_lines;
mod laws;
mod leads;
mod likely;
mod pages;
mod players;
mod reading;
mod tab_fields;
mod tab_laws;
mod tab_reading;
mod tabs;

pub use answers::{Answer, Ending, Unread};
pub use fields::Fields;
pub use json_lines::push_json_line;
pub use laws::law_of_tab_lines;
pub use leads::{Lead, lead_of};
pub use likely::LikelyFields;
pub use pages::PageField;
pub use reading::LineRead;
pub use tab_fields::{push_escaped, push_field};
pub use tab_laws::law_of_lines;
pub use tab_reading::{push_unescaped, read_fields};
pub use tabs::push_tab_line;
