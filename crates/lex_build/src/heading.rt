//! The header of a file.
ghost use Rattle.std.specs.Prelude.{◌≡◌, ◌++◌, ◌≤◌, length, drop};
ghost use Rattle.lex_file.specs.Formats.{header_bytes};
ghost use Rattle.lex_build.specs.Headers.{magic_of, header_of};

use byteorder::{ByteOrder, LittleEndian};
use lex_file::{Format, GAD1_MAGIC, GAD2_MAGIC};

/// The bytes of a file with its header filled in: the format, the number of words after the header, the root, the number of words
/// of the list.
#[tactic(auto, using(crate::proofs::Headers::written_back, crate::proofs::Headers::filled, crate::proofs::Headers::header_size))]
pub fn with_header(mut bytes: Vec<u8>, format: Format, count: u32, root: u32, words: u32) -> Vec<u8>
    requires { header_bytes ≤ length bytes.items }
    ensures { result.items ≡ header_of format count root words ++ drop header_bytes bytes.items }
{
    fill_header(&mut bytes, format, count, root, words);
    bytes
}

/// Fills in the header of a file.
fn fill_header(bytes: &mut [u8], format: Format, count: u32, root: u32, words: u32)
    requires { header_bytes ≤ length bytes.old }
    ensures { bytes.new ≡ header_of format count root words ++ drop header_bytes bytes.old }
{
    bytes[..4].copy_from_slice(&magic(format));
    LittleEndian::write_u32(&mut bytes[4..], count);
    LittleEndian::write_u32(&mut bytes[8..], root);
    LittleEndian::write_u32(&mut bytes[12..], words);
}

/// The first bytes of a file of a format.
fn magic(format: Format) -> [u8; 4]
    ensures { result ≡ magic_of format }
{
    match format {
        Format::Gad1 => GAD1_MAGIC,
        Format::Gad2 => GAD2_MAGIC,
    }
}
