//! The text of a page.
ghost use Rattle.std.specs.Prelude.{◌≡◌, ◌++◌, OnOk, [], take, length};
ghost use Rattle.gcg_about.specs.Texts.{text_by};
ghost use Rattle.page_pieces.specs.Pieces.{shown, written, text_of};

use crate::escaping::push_text;
use crate::fillings::{count_text, counts_text, number_text, spot_text};
use crate::pieces::Piece;
use gcg_about::Encoding;
use std::alloc::{AllocError, Global};

/// The text of a page, which grows only by pieces.
#[derive(Drop)]
pub struct PageText {
    alloc: Global,
    bytes: Vec<u8>,
}

/// Appends bytes of a record, by its encoding.
fn push_recorded(
    alloc: Global,
    bytes: &mut Vec<u8>,
    text: &[u8],
    encoding: Encoding,
) -> Result<(), AllocError>
    ensures { OnOk result (bytes.new.items ≡ bytes.old.items ++ shown (text_by encoding text.now)) }
{
    let text = encoding.text_of(alloc, text)?;
    push_text(alloc, bytes, text.as_bytes())
}

/// Appends a piece.
fn push_piece(alloc: Global, bytes: &mut Vec<u8>, piece: &Piece<'_>) -> Result<(), AllocError>
    ensures { OnOk result (bytes.new.items ≡ bytes.old.items ++ written piece.now) }
{
    match piece {
        Piece::Markup(markup) => bytes.extend_from_slice(markup.as_bytes()),
        Piece::Text(text) => push_text(alloc, bytes, text),
        Piece::Recorded(text, encoding) => push_recorded(alloc, bytes, text, *encoding),
        Piece::Number(number) => {
            let text = number_text(alloc, *number)?;
            push_text(alloc, bytes, text.as_slice())
        }
        Piece::Many(many) => {
            let text = count_text(alloc, *many)?;
            push_text(alloc, bytes, text.as_slice())
        }
        Piece::Tiles(tiles) => {
            let text = counts_text(alloc, tiles)?;
            push_text(alloc, bytes, text.as_slice())
        }
        Piece::Play(at, dir, word) => {
            let text = spot_text(alloc, *at, *dir, word)?;
            push_text(alloc, bytes, text.as_slice())
        }
    }
}

/// Appends pieces, one after the other.
fn push_pieces(alloc: Global, bytes: &mut Vec<u8>, pieces: &[Piece<'_>]) -> Result<(), AllocError>
    ensures { OnOk result (bytes.new.items ≡ bytes.old.items ++ text_of pieces.now) }
{
    for piece in pieces {
        push_piece(alloc, bytes, piece)?;
    }
    Ok(())
}

impl PageText {
    ghost use Rattle.page_pieces.specs.Pieces.{text_in};

    /// The text of an empty page.
    pub fn new(alloc: Global) -> PageText
        ensures { text_in result ≡ [] }
    {
        PageText {
            alloc,
            bytes: Vec::new(alloc),
        }
    }

    /// Appends pieces, one after the other. It fails only if memory runs out.
    pub fn push(&mut self, pieces: &[Piece<'_>]) -> Result<(), AllocError>
        ensures { OnOk result (text_in self.new ≡ text_in self.old ++ text_of pieces.now) }
    {
        push_pieces(self.alloc, &mut self.bytes, pieces)
    }

    /// The bytes.
    pub fn as_slice(&self) -> &[u8]
        ensures { result.now ≡ text_in self.now }
    {
        self.bytes.as_slice()
    }

    /// How many bytes there are.
    pub fn len(&self) -> usize
        ensures { result ≡ length (text_in self.now) }
    {
        self.bytes.len()
    }

    /// Keeps the first `many` bytes, and removes the others.
    pub fn truncate(&mut self, many: usize)
        ensures { text_in self.new ≡ take many (text_in self.old) }
    {
        self.bytes.truncate(many);
    }

    /// Removes all bytes.
    pub fn clear(&mut self)
        ensures { text_in self.new ≡ [] }
    {
        self.bytes.clear();
    }
}
