//! Folders among the names of files.

use std::fs;
use std::rt::Files;

/// Whether a name leads to a folder.
pub fn is_folder<R: Files>(rt: &R, name: &str) -> bool {
    match fs::metadata(rt, name) {
        Ok(there) => there.is_dir(),
        Err(_) => false,
    }
}
