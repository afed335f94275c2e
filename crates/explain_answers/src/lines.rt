//! A line as it is in the file.
ghost use Rattle.std.specs.Prelude.{◌≡◌, ◌++◌, OnOk, codes, decimal};
ghost use Rattle.explain_answers.specs.Openings.{shown_line};

use explain_clues::line_of;
use std::alloc::AllocError;
use text_decimals::push_number;

/// Appends the number of a line and what is between it and the line.
fn push_opening(text: &mut Vec<u8>, line: u32) -> Result<(), AllocError>
    ensures { OnOk result (text.new.items ≡ text.old.items ++ (codes "line " ++ decimal line ++ codes ": ")) }
{
    text.extend_from_slice(b"line ")?;
    push_number(text, line)?;
    text.extend_from_slice(b": ")?;
    Ok(())
}

/// Appends a line of a record as it is in the file, after its number; nothing if the file has fewer lines.
pub fn push_numbered_line(text: &mut Vec<u8>, bytes: &[u8], line: u32) -> Result<(), AllocError>
    ensures { OnOk result (text.new.items ≡ text.old.items ++ shown_line bytes.now line) }
{
    let Some(written) = line_of(bytes, line) else {
        return Ok(());
    };
    push_opening(text, line)?;
    text.extend_from_slice(written)?;
    text.push(b'\n')?;
    Ok(())
}
