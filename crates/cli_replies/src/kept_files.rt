//! The output that a command names for a text, as a file or standard output.

use cli_files::{Trouble, write_out};
use reply_calls::{KeepFailed, Outlet};
use std::rt::Runtime;

/// The output that a command names, if it names one.
#[derive(Drop)]
pub struct KeptFile<'r, 'a, R> {
    rt: &'r R,
    name: Option<&'a str>,
    /// Why the text could not be written.
    trouble: Option<Trouble<'a>>,
}

impl<'r, 'a, R: Runtime + AllocGlobal> KeptFile<'r, 'a, R> {
    /// The output of this name, if there is one. It is opened once there is a text to be written.
    pub fn new(rt: &'r R, name: Option<&'a str>) -> KeptFile<'r, 'a, R> {
        KeptFile {
            rt,
            name,
            trouble: None,
        }
    }

    /// Why the text could not be written, if it could not.
    pub fn trouble(&self) -> Option<Trouble<'a>> {
        self.trouble
    }
}

impl<R: Runtime + AllocGlobal> Outlet for KeptFile<'_, '_, R> {
    ghost use Rattle.std.specs.Prelude.{⊤, IsTrue, is_some};

    ghost holds = { λ file text. ⊤ };

    ghost has_failed = { λ file. IsTrue (is_some file.trouble) };

    fn keep(&mut self, text: &[u8]) -> Result<(), KeepFailed> {
        let Some(name) = self.name else {
            return Ok(());
        };
        match write_out(self.rt, name, text) {
            Ok(()) => Ok(()),
            Err(trouble) => {
                self.trouble = Some(trouble);
                Err(KeepFailed)
            }
        }
    }
}
