//! Where bytes come from and go to: inputs and outputs that count their failures, over std's readers and writers,
//! and calls that read an input whole and write bytes whole.
#![tactic(auto)]

mod failing;
mod from_read;
mod from_write;
mod inputs;
mod outputs;

pub use failing::{DeviceFailed, ReadGaveUp, WriteGaveUp};
pub use from_read::FromRead;
pub use from_write::FromWrite;
pub use inputs::{Input, read_within};
pub use outputs::{Output, write_whole};
