//! What is shown of bytes on a terminal.
ghost use Rattle.std.specs.Prelude.{◌≡◌, ◌+◌, ◌<◌, ◌++◌, get_or, length, OnOk, IfOk};
ghost use Rattle.std.specs.Io.KnownBytes.{Appends};
ghost use Rattle.io_terminals.specs.Showing.{is_control, is_second, byte_before, begins_at, ends_at, shown_byte, shown_at, shown_to, shown};

use std::alloc::{AllocError, Global};
use std::io::{self, Write};

/// The first byte of a control character that UTF-8 writes with two bytes.
const FIRST: u8 = 0xC2;

/// Whether a byte is a control character other than the tab and the line feed.
fn is_control(byte: u8) -> bool
    ensures { result ≡ is_control byte }
{
    byte < 9 || (byte < 32 && 10 < byte) || byte == 127
}

/// Whether a byte comes second in a control character that UTF-8 writes with two bytes.
fn is_second(byte: u8) -> bool
    ensures { result ≡ is_second byte }
{
    byte < 160 && 127 < byte
}

/// The byte at a place, and 0 if there is none.
fn byte_at(bytes: &[u8], place: usize) -> u8
    ensures { result ≡ get_or bytes.now place 0 }
{
    if place < bytes.len() { bytes[place] } else { 0 }
}

/// The byte before a place, and 0 at the beginning.
fn byte_before(bytes: &[u8], place: usize) -> u8
    ensures { result ≡ byte_before bytes.now place }
{
    if place == 0 {
        return 0;
    }
    byte_at(bytes, place - 1)
}

/// Whether a control character of two bytes begins at a place.
fn begins_at(bytes: &[u8], place: usize) -> bool
    requires { place < length bytes.now }
    ensures { result ≡ begins_at bytes.now place }
{
    byte_at(bytes, place) == FIRST && is_second(byte_at(bytes, place + 1))
}

/// Whether a control character of two bytes ends at a place.
fn ends_at(bytes: &[u8], place: usize) -> bool
    ensures { result ≡ ends_at bytes.now place }
{
    byte_before(bytes, place) == FIRST && is_second(byte_at(bytes, place))
}

/// Appends what is shown of a byte by itself: `^` and a sign for a control character, and otherwise the byte.
fn push_byte(out: &mut Vec<u8>, byte: u8) -> Result<(), AllocError>
    ensures { OnOk result (out.new.items ≡ out.old.items ++ shown_byte byte) }
{
    if !is_control(byte) {
        out.push(byte)?;
        return Ok(());
    }
    out.push(b'^')?;
    if byte == 127 {
        out.push(b'?')?;
        return Ok(());
    }
    out.push(byte + 64)?;
    Ok(())
}

/// Appends what is shown of the byte at a place.
fn push_at(out: &mut Vec<u8>, bytes: &[u8], place: usize) -> Result<(), AllocError>
    requires { place < length bytes.now }
    ensures { OnOk result (out.new.items ≡ out.old.items ++ shown_at bytes.now place) }
{
    if begins_at(bytes, place) {
        return Ok(());
    }
    let byte = byte_at(bytes, place);
    if !ends_at(bytes, place) {
        return push_byte(out, byte);
    }
    out.extend_from_slice(b"^[")?;
    out.push(byte - 64)?;
    Ok(())
}

/// What is shown of bytes on a terminal.
///
/// It fails only if memory runs out.
#[tactic(auto, using(crate::proofs::Steps::none_shown, crate::proofs::Steps::more_shown, crate::proofs::Steps::all_shown))]
pub fn shown(alloc: Global, bytes: &[u8]) -> Result<Vec<u8>, AllocError>
    ensures { IfOk result (λ out. out.items ≡ shown bytes.now) }
{
    let mut out = Vec::new(alloc);
    for place in 0..bytes.len() {
        push_at(&mut out, bytes, place)?;
    }
    Ok(out)
}

/// Writes what is shown of bytes.
///
/// That all output to a terminal goes through it, and that nothing else does, is tested.
///
/// # Errors
///
/// The writer failed, or memory was refused.
pub fn write_shown<W: Write>(alloc: Global, writer: &mut W, bytes: &[u8]) -> io::Result<()>
    ensures { OnOk result (Appends (W.contents writer.old) (W.contents writer.new) (shown bytes.now)) }
{
    let out = shown(alloc, bytes)?;
    writer.write_all(out.as_slice())
}
