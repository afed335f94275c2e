//! Output on a terminal, where a control character of a record must not reach the terminal: it is shown by two signs instead.
//!
//! [`shown`] gives the bytes that are shown of some bytes, and [`write_shown`] writes them. A [`Guarded`] runtime does so with all that goes to
//! its standard output or standard error, if these are terminals; everything else it passes on to the runtime inside it. By [`law_of_shown`] no
//! control character but the tab and the line feed is among the bytes that are shown.
#![tactic(auto)]

mod forwarding;
mod guarding;
mod laws;
mod showing;

pub use guarding::Guarded;
pub use laws::law_of_shown;
pub use showing::{shown, write_shown};
