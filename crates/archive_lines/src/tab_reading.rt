//! Reading the fields of a line.
ghost use Rattle.std.specs.Prelude.{◌≡◌, ◌<◌, ◌++◌, ◌∷◌, IfOk, IfSome, OnOk, length, map, vec_items};
ghost use Rattle.std.specs.List.{position, slice_split};
ghost use Rattle.archive_lines.specs.TabLines.{is_tab, meant, unescaped, fields_after, fields_read};

use bstr::ByteSlice;
use std::alloc::{AllocError, Global};

/// The first field of a line, as it is written.
#[derive(Clone, Copy)]
struct Cut<'a> {
    /// The field.
    field: &'a [u8],
    /// What follows its tab, if it has one.
    after: Option<&'a [u8]>,
}

/// The place of the first tab of a line.
#[tactic(auto, using(text_lines::proofs::Cuts::first_byte))]
fn find_tab(line: &[u8]) -> Option<usize>
    ensures { result ≡ position is_tab line.now }
{
    line.find_byte(b'\t')
}

/// Cuts the first field off a line.
#[tactic(auto, using(crate::proofs::Cuts::fields_end))]
fn cut_field(line: &[u8]) -> Cut<'_>
    ensures fields { slice_split is_tab line.now ≡ result.field.now ∷ fields_after result.after }
    ensures shorter { IfSome result.after (λ after. length after.now < length line.now) }
{
    match find_tab(line) {
        None => Cut {
            field: line,
            after: None,
        },
        Some(end) => Cut {
            field: &line[..end],
            after: Some(&line[end + 1..]),
        },
    }
}

/// What a byte after a backslash stands for.
fn meant(byte: u8) -> u8
    ensures { result ≡ meant byte }
{
    if byte == b't' {
        b'\t'
    } else if byte == b'n' {
        b'\n'
    } else {
        byte
    }
}

/// Appends a field with its escapes undone.
///
/// # Errors
///
/// Memory ran out.
pub fn push_unescaped(out: &mut Vec<u8>, field: &[u8]) -> Result<(), AllocError>
    ensures { OnOk result (out.new.items ≡ out.old.items ++ unescaped field.now) }
{
    let mut remaining = field;
    let mut following = false;
    while let [byte, rest @ ..] = remaining {
        let byte = *byte;
        remaining = rest;
        if following {
            out.push(meant(byte))?;
            following = false;
        } else if byte == b'\\' {
            following = true;
        } else {
            out.push(byte)?;
        }
    }
    if following {
        out.push(b'\\')?;
    }
    Ok(())
}

/// Reads a field into a text of its own, with its escapes undone.
fn read_field(alloc: Global, field: &[u8]) -> Result<Vec<u8>, AllocError>
    ensures { IfOk result (λ text. text.items ≡ unescaped field.now) }
{
    let mut text = Vec::new(alloc);
    push_unescaped(&mut text, field)?;
    Ok(text)
}

/// The fields of a line without its LF, with their escapes undone.
///
/// # Errors
///
/// Memory ran out.
#[tactic(auto, using(crate::proofs::Cuts::one_field_more))]
pub fn read_fields(alloc: Global, line: &[u8]) -> Result<Vec<Vec<u8>>, AllocError>
    ensures { IfOk result (λ fields. map vec_items fields.items ≡ fields_read line.now) }
{
    let mut fields = Vec::new(alloc);
    let mut cut = cut_field(line);
    while let Some(after) = cut.after {
        fields.push(read_field(alloc, cut.field)?)?;
        cut = cut_field(after);
    }
    fields.push(read_field(alloc, cut.field)?)?;
    Ok(fields)
}
