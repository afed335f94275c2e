//! Where the report of a command goes.

ghost use Rattle.io_devices.specs.Devices.{HasRoom};

use cli_args::STANDARD_OUTPUT_NAME;
use cli_files::{STANDARD_ERROR, STANDARD_OUTPUT, watched};
use either::Either;
use io_devices::{FromWrite, Output};
use io_watch::WatchedWrite;
use std::io::{self, Error, ErrorKind, Printer, Write};
use std::rt::Runtime;

/// Standard error, to which each write goes as text.
#[derive(Drop)]
pub struct ErrorText<'r, R> {
    rt: &'r R,
}

impl<R: Runtime + AllocGlobal> Write for ErrorText<'_, R> {
    fn write(&mut self, buf: &[u8]) -> io::Result<usize> {
        let Ok(text) = String::from_utf8_lossy(self.rt.alloc(), buf) else {
            return Err(Error::from(ErrorKind::OutOfMemory));
        };
        self.rt.eprint(text.as_str())?;
        Ok(buf.len())
    }

    fn flush(&mut self) -> io::Result<()> {
        Ok(())
    }
}

/// Standard output, or standard error.
pub type Report<'r, R> = FromWrite<WatchedWrite<Either<Printer<'r, R>, ErrorText<'r, R>>>>;

/// Where the report goes: to standard output, or to standard error if a command writes to an output of this name that is standard output itself.
pub fn report_beside<'r, R: Runtime + AllocGlobal>(rt: &'r R, out: Option<&str>) -> Report<'r, R>
    ensures { HasRoom (⟦<Report<'r, R> as Output>⟧.device result) }
{
    let writer = if out == Some(STANDARD_OUTPUT_NAME) {
        Either::Right(ErrorText { rt })
    } else {
        Either::Left(io::writer(rt))
    };
    FromWrite::new(watched(rt, writer))
}

/// The name in messages of where the report goes.
pub fn name_beside(out: Option<&str>) -> &'static str {
    if out == Some(STANDARD_OUTPUT_NAME) {
        STANDARD_ERROR
    } else {
        STANDARD_OUTPUT
    }
}
