//! The reader of game records in the GCG format: from bytes to players and events, or the first fault.
//!
//! The format is the Poslfit GCG specification, <https://www.poslfit.com/scrabble/gcg/>, in a profile of
//! this project's own. A line that begins with `>` is an event: a play, or one of the codes `-`, `--`, `-` with
//! tiles or with a number of them, `(challenge)`, `(time)` and a last rack in round brackets. The pragmas
//! `#player1` and `#player2` before the first event name the players. Every other line is ignored.
#![tactic(auto)]

mod codes;
mod cutting;
mod event_lines;
mod events;
mod faults;
mod laws;
mod names;
mod players;
mod points;
mod positions;
mod pragmas;
mod racks;
mod reading;
mod records;
mod texts;

pub use events::{Event, EventKind, Events, Seat, same_rack, same_seat};
pub use faults::{ReadFault, Why};
pub use laws::{law_of_faults, law_of_lines};
pub use names::Name;
pub use players::{Player, Players};
pub use points::Points;
pub use racks::read_rack;
pub use reading::{MAX_BYTES, MAX_EVENTS, read};
pub use records::Record;
pub use texts::Text;
