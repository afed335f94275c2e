//! The name of a page.
ghost use Rattle.std.specs.Prelude.{◌≡◌, ◌<◌, ◌++◌, ◌∷◌, IfSome, OnOk, length};
ghost use Rattle.std.specs.List.{position};
ghost use Rattle.page_pieces.specs.Names.{is_slash, parts_of, parts_after, escaped_byte, escaped, is_step, folder_text, has_ending, page_text, page_name};

use bstr::ByteSlice;
use std::alloc::AllocError;

/// The first part of a name: that of a folder, or of the file.
#[derive(Clone, Copy)]
struct Cut<'a> {
    /// The part.
    part: &'a [u8],
    /// What is after its slash, if it has one.
    after: Option<&'a [u8]>,
}

/// The place of the first slash of a name.
#[tactic(auto, using(text_lines::proofs::Cuts::first_byte))]
fn find_slash(name: &[u8]) -> Option<usize>
    ensures { result ≡ position is_slash name.now }
{
    name.find_byte(b'/')
}

/// Cuts the first part off a name.
#[tactic(auto, using(crate::proofs::Cuts::parts_end))]
fn cut_part(name: &[u8]) -> Cut<'_>
    ensures parts { parts_of name.now ≡ result.part.now ∷ parts_after result.after }
    ensures shorter { IfSome result.after (λ after. length after.now < length name.now) }
{
    match find_slash(name) {
        None => Cut {
            part: name,
            after: None,
        },
        Some(end) => Cut {
            part: &name[..end],
            after: Some(&name[end + 1..]),
        },
    }
}

/// Appends a byte of a name.
fn push_byte(out: &mut Vec<u8>, byte: u8) -> Result<(), AllocError>
    ensures { OnOk result (out.new.items ≡ out.old.items ++ escaped_byte byte) }
{
    if byte == b'%' {
        return out.extend_from_slice(b"%25");
    }
    out.push(byte)?;
    Ok(())
}

/// Appends a part of a name, with each `%` as `%25`.
#[tactic(auto, unfolding(crate::specs::Names::escaped))]
fn push_escaped(out: &mut Vec<u8>, text: &[u8]) -> Result<(), AllocError>
    ensures { OnOk result (out.new.items ≡ out.old.items ++ escaped text.now) }
{
    for byte in text {
        push_byte(out, *byte)?;
    }
    Ok(())
}

/// Whether a part is empty, `.` or `..`.
fn is_step(part: &[u8]) -> bool
    ensures { result ≡ is_step part.now }
{
    match part {
        [] | [b'.'] | [b'.', b'.'] => true,
        _ => false,
    }
}

/// Appends the name of a folder.
#[tactic(auto, unfolding(crate::specs::Names::folder_text))]
fn push_folder(out: &mut Vec<u8>, part: &[u8]) -> Result<(), AllocError>
    ensures { OnOk result (out.new.items ≡ out.old.items ++ folder_text part.now) }
{
    if is_step(part) {
        out.push(b'%')?;
        return out.extend_from_slice(part);
    }
    push_escaped(out, part)
}

/// Whether the ending of a file is left out of the name of its page.
#[tactic(auto, unfolding(crate::specs::Names::has_ending))]
fn has_ending(part: &[u8]) -> bool
    ensures { result ≡ has_ending part.now }
{
    part.ends_with(b".gcg") && !part.starts_with(b"index.gcg")
}

/// Appends the name of a page.
#[tactic(auto, unfolding(crate::specs::Names::page_text))]
fn push_page(out: &mut Vec<u8>, part: &[u8]) -> Result<(), AllocError>
    ensures { OnOk result (out.new.items ≡ out.old.items ++ page_text part.now) }
{
    if has_ending(part) {
        push_escaped(out, &part[..part.len() - 4])?;
        return out.extend_from_slice(b".html");
    }
    push_escaped(out, part)?;
    out.extend_from_slice(b"%.html")
}

/// Appends the name of the page of a game: its path in the folder of the pages. It is the name of the game with `.html` in place of its
/// ending `.gcg`, or with `%.html` after it if it has no such ending. A `%` is written `%25`, and a part that is empty, `.` or `..` has a
/// `%` before it.
///
/// # Errors
///
/// Memory was refused.
#[tactic(auto, using(crate::proofs::Cuts::one_part_more), unfolding(crate::specs::Names::page_name))]
pub fn push_page_name(out: &mut Vec<u8>, name: &[u8]) -> Result<(), AllocError>
    ensures { OnOk result (out.new.items ≡ out.old.items ++ page_name name.now) }
{
    let mut cut = cut_part(name);
    while let Some(after) = cut.after {
        push_folder(out, cut.part)?;
        out.push(b'/')?;
        cut = cut_part(after);
    }
    push_page(out, cut.part)
}
