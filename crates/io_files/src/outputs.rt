//! A file that is being written.

use crate::names::{end_of_links, part_beside};
use std::alloc::Global;
use std::fs::{self, OpenFile, OpenOptions, Permissions};
use std::io::{self, ErrorKind, Result, Write};
use std::os::unix::fs::OpenOptionsExt;
use std::rt::Files;

/// How many names are tried for a new file next to another one.
const MOST_NAMES: u32 = 1000;

/// The permissions of a new file until it has those of the file that it is to replace.
const HIDDEN: u32 = 0o600;

/// A file that is being written. If its name leads to a file or to nothing, the bytes are written to a new file in the same folder, and
/// the name leads to it only once it is [kept](OutputFile::keep): so what was there stays as it is until then. A device, a pipe and
/// anything else that is not a file is written in place.
#[derive(Drop)]
pub struct OutputFile<F> {
    file: F,
    /// Where the new file is to go; none if the output is written in place.
    renaming: Option<Renaming>,
}

/// The two names of a new file.
#[derive(Drop)]
struct Renaming {
    /// Its name while it is written.
    from: String,
    /// The name that it gets when it is kept.
    to: String,
}

impl<F: Write + OpenFile + Drop> OutputFile<F> {
    /// Opens the output of this name.
    ///
    /// # Errors
    ///
    /// What prevents the output from being written: for example, it is a folder, or it must not be written, or no new file can be made in
    /// its folder.
    pub fn open<R: Files<File = F> + AllocGlobal>(rt: &R, name: &str) -> Result<OutputFile<F>> {
        match fs::metadata(rt, name) {
            Ok(there) if there.is_file() => {
                let _writable = in_place(rt, name)?;
                let to = fs::canonicalize(rt, name)?.into_string();
                OutputFile::beside(rt, to, Some(there.permissions()))
            }
            Ok(_) => Ok(OutputFile {
                file: in_place(rt, name)?,
                renaming: None,
            }),
            Err(error) if error.kind() == ErrorKind::NotFound => {
                OutputFile::beside(rt, end_of_links(rt, name)?, None)
            }
            Err(error) => Err(error),
        }
    }

    /// Makes a new file next to the one that it is to replace, with the same permissions if these are given.
    fn beside<R: Files<File = F> + AllocGlobal>(
        rt: &R,
        to: String,
        permissions: Option<Permissions>,
    ) -> Result<OutputFile<F>> {
        let mut options = OpenOptions::new();
        options.write(true).create_new(true);
        if permissions.is_some() {
            options.mode(HIDDEN);
        }
        for number in 0..MOST_NAMES {
            let from = part_beside(rt.alloc(), to.as_str(), number)?;
            match options.open(rt, from.as_str()) {
                Ok(file) => {
                    if let Some(permissions) = permissions {
                        let _ = file.set_permissions(permissions);
                    }
                    let renaming = Some(Renaming { from, to });
                    return Ok(OutputFile { file, renaming });
                }
                Err(error) if error.kind() == ErrorKind::AlreadyExists => {}
                Err(error) => return Err(error),
            }
        }
        Err(io::Error::from(ErrorKind::AlreadyExists))
    }

    /// Keeps what was written: from now on the name of the output leads to it, and the file that was there before is gone.
    ///
    /// # Errors
    ///
    /// If the device did not take all of it, or the name could not be given. Then what was there before is as it was.
    pub fn keep<R: Files<File = F>>(self, rt: &R) -> Result<()> {
        let OutputFile { file, renaming } = self;
        let Some(Renaming { from, to }) = renaming else {
            return Ok(());
        };
        let mut kept = file.sync_all();
        if kept.is_ok() {
            kept = fs::rename(rt, from.as_str(), to.as_str());
        }
        if kept.is_err() {
            let _ = fs::remove_file(rt, from.as_str());
        }
        kept
    }

    /// Throws away what was written to a new file.
    pub fn discard<R: Files<File = F>>(self, rt: &R) {
        if let Some(renaming) = &self.renaming {
            let _ = fs::remove_file(rt, renaming.from.as_str());
        }
    }
}

/// Opens for writing what is there, and changes nothing in it.
fn in_place<R: Files>(rt: &R, name: &str) -> Result<R::File> {
    OpenOptions::new().write(true).open(rt, name)
}

impl<F: Write> Write for OutputFile<F> {
    fn write(&mut self, buf: &[u8]) -> Result<usize> {
        self.file.write(buf)
    }

    fn flush(&mut self) -> Result<()> {
        self.file.flush()
    }
}
