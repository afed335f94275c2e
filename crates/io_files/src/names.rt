//! Names of files: whether two lead to the same file, where a name leads that has no file yet, and a name for a new file next to
//! another.

use std::alloc::{AllocError, Global};
use std::fs;
use std::io::{self, ErrorKind};
use std::os::unix::fs::MetadataExt;
use std::path::Path;
use std::rt::Files;

/// How many links the system follows from one name.
const MOST_LINKS: u32 = 40;

/// The numbers by which the system knows a file: all names of a file have the same.
#[derive(Clone, Copy, Debug, PartialEq, Eq, PartialOrd, Ord)]
pub struct FileNumbers {
    device: u64,
    file: u64,
}

/// The numbers of the file to which a name leads once links are followed. None if it leads to no file, and none for a device or a pipe, since
/// nothing is lost when these are written.
pub fn file_numbers<R: Files>(rt: &R, name: &str) -> Option<FileNumbers> {
    match fs::metadata(rt, name) {
        Ok(found) if found.is_file() => Some(FileNumbers {
            device: found.dev(),
            file: found.ino(),
        }),
        _ => None,
    }
}

/// Whether two names lead to the same file once links are followed. A name that leads to no file is the same as no other, and so is that
/// of a device or a pipe.
pub fn is_same_file<R: Files>(rt: &R, one: &str, other: &str) -> bool {
    match (file_numbers(rt, one), file_numbers(rt, other)) {
        (Some(one), Some(other)) => one == other,
        _ => false,
    }
}

/// The name of the file that is created by this name, if it leads to none yet: the one to which its links lead.
///
/// # Errors
///
/// `NotFound` if no file can have the name, and what else prevents a link from being read.
pub fn end_of_links<R: Files + AllocGlobal>(rt: &R, name: &str) -> io::Result<String> {
    let mut end = String::from_str(rt.alloc(), name)?;
    for _ in 0..MOST_LINKS {
        match next_link(rt, end.as_str())? {
            Some(next) => end = next,
            None => break,
        }
    }
    if end.is_empty() || end.ends_with('/') {
        return Err(io::Error::from(ErrorKind::NotFound));
    }
    Ok(end)
}

/// The name to which the link of this name leads; none if it is not a link.
fn next_link<R: Files + AllocGlobal>(rt: &R, name: &str) -> io::Result<Option<String>> {
    match fs::read_link(rt, name) {
        Ok(next) => {
            let path = Path::new(name).with_file_name(rt.alloc(), next.as_str())?;
            Ok(Some(path.into_string()))
        }
        Err(error) if error.kind() == ErrorKind::OutOfMemory => Err(error),
        Err(_) => Ok(None),
    }
}

/// The name of a new file in the folder of another one: `.referee-NUMBER.part`, which listings do not show by default.
pub fn part_beside(alloc: Global, file: &str, number: u32) -> Result<String, AllocError> {
    let name = format!(in alloc; ".referee-{number}.part")?;
    let path = Path::new(file).with_file_name(alloc, name.as_str())?;
    Ok(path.into_string())
}
