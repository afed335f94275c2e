//! Fields of a line.
ghost use Rattle.std.specs.Prelude.{◌≡◌, ◌++◌, ◌∷◌, OnOk};
ghost use Rattle.archive_lines.specs.TabLines.{escaped_byte, escaped};

use std::alloc::AllocError;

/// Appends a byte of a field.
fn push_byte(line: &mut Vec<u8>, byte: u8) -> Result<(), AllocError>
    ensures { OnOk result (line.new.items ≡ line.old.items ++ escaped_byte byte) }
{
    if byte == b'\t' {
        return line.extend_from_slice(b"\\t");
    }
    if byte == b'\n' {
        return line.extend_from_slice(b"\\n");
    }
    if byte == b'\\' {
        return line.extend_from_slice(b"\\\\");
    }
    line.push(byte)?;
    Ok(())
}

/// Appends a field, with each tab, LF and backslash in it as `\t`, `\n` and `\\`.
///
/// # Errors
///
/// Memory ran out.
#[tactic(auto, unfolding(crate::specs::TabLines::escaped))]
pub fn push_escaped(line: &mut Vec<u8>, text: &[u8]) -> Result<(), AllocError>
    ensures { OnOk result (line.new.items ≡ line.old.items ++ escaped text.now) }
{
    for byte in text {
        push_byte(line, *byte)?;
    }
    Ok(())
}

/// Appends a tab, and a field after it.
///
/// # Errors
///
/// Memory ran out.
pub fn push_field(line: &mut Vec<u8>, text: &[u8]) -> Result<(), AllocError>
    ensures { OnOk result (line.new.items ≡ line.old.items ++ 9 ∷ escaped text.now) }
{
    line.push(b'\t')?;
    push_escaped(line, text)
}
