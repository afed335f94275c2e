//! The encoding of what is said of a sheet.

use gcg_about::Encoding;
use std::alloc::{AllocError, Global};

/// What is said of a sheet of this encoding, as UTF-8 if the sheet states that it is ISO-8859-1. Otherwise the bytes stay as they are.
pub fn in_utf8(
    alloc: Global,
    reported: Vec<u8>,
    encoding: Encoding,
) -> Result<Vec<u8>, AllocError> {
    match encoding {
        Encoding::Utf8 => Ok(reported),
        Encoding::Latin1 => {
            let text = Encoding::Latin1.text_of(alloc, reported.as_slice())?;
            Ok(text.into_bytes())
        }
    }
}
