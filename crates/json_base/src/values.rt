//! Values that many answers have, as trees.
ghost use Rattle.std.specs.Prelude.{◌≡◌, ◌++◌, ◌∷◌, [], IfOk, OnOk, codes};
ghost use Rattle.json_trees.specs.Trees.{view};
ghost use Rattle.ref_tiles.specs.Kinds.{kind_byte};
ghost use Rattle.gcg_write.specs.Fields.{column_byte, position_text, row_text, word_text};
ghost use Rattle.json_base.specs.Faults.{line_value, tile_value};
ghost use Rattle.json_base.specs.Values.{given_text, place_value, rack_value, symbols_value, tiles_value, unread_object, unread_value};

use gcg_unread::UnreadLine;
use gcg_write::tiles_text;
use json_trees::{Tree, array, count_or_null, count_tree, name_tree, null_tree, object, text_tree};
use ref_board::{Dir, Square};
use ref_tiles::{Counts, Kind, Symbol};
use std::alloc::{AllocError, Global};
use text_decimals::push_number;

/// Bytes as text, with U+FFFD for what is not UTF-8; null if there are none.
pub fn given_tree(alloc: Global, bytes: &[u8]) -> Result<Tree, AllocError>
    ensures { IfOk result (λ tree. view tree ≡ given_text bytes.now) }
{
    match bytes {
        [] => Ok(null_tree()),
        [_, ..] => text_tree(alloc, bytes),
    }
}

/// Tiles as event lines have them.
pub fn tiles_tree(alloc: Global, tiles: &Counts) -> Result<Tree, AllocError>
    ensures { IfOk result (λ tree. view tree ≡ tiles_value tiles.now) }
{
    let mut text = Vec::new(alloc);
    tiles_text(tiles, &mut text)?;
    text_tree(alloc, text.as_slice())
}

/// The tiles of a rack; null if none is stated.
pub fn rack_tree(alloc: Global, rack: &Option<Counts>) -> Result<Tree, AllocError>
    ensures { IfOk result (λ tree. view tree ≡ rack_value rack.now) }
{
    match rack {
        Some(rack) => tiles_tree(alloc, rack),
        None => Ok(null_tree()),
    }
}

/// A kind of tile: a capital, or `?` for a blank.
pub fn tile_tree(alloc: Global, kind: Kind) -> Result<Tree, AllocError>
    ensures { IfOk result (λ tree. view tree ≡ tile_value kind) }
{
    let text = vec![in alloc; kind.byte()]?;
    text_tree(alloc, text.as_slice())
}

/// Appends the row of a square, counted from 1.
fn push_row(text: &mut Vec<u8>, at: Square) -> Result<(), AllocError>
    ensures { OnOk result (text.new.items ≡ text.old.items ++ row_text at) }
{
    push_number(text, at.row() + 1)
}

/// Appends the column of a square, A to O.
fn push_column(text: &mut Vec<u8>, at: Square) -> Result<(), AllocError>
    ensures { OnOk result (text.new.items ≡ text.old.items ++ column_byte at ∷ []) }
{
    text.push(b'A' + at.column() as u8)?;
    Ok(())
}

/// Appends where a play begins: row and column across, column and row down.
fn push_place(text: &mut Vec<u8>, at: Square, dir: Dir) -> Result<(), AllocError>
    ensures { OnOk result (text.new.items ≡ text.old.items ++ position_text at dir) }
{
    match dir {
        Dir::Across => {
            push_row(text, at)?;
            push_column(text, at)
        }
        Dir::Down => {
            push_column(text, at)?;
            push_row(text, at)
        }
    }
}

/// Where a play begins, as event lines have it.
pub fn place_tree(alloc: Global, at: Square, dir: Dir) -> Result<Tree, AllocError>
    ensures { IfOk result (λ tree. view tree ≡ place_value at dir) }
{
    let mut text = Vec::new(alloc);
    push_place(&mut text, at, dir)?;
    text_tree(alloc, text.as_slice())
}

/// The text of a play, as event lines have it: a dot for a tile that was there, and a small letter for a blank.
pub fn symbols_tree(alloc: Global, word: &[Symbol]) -> Result<Tree, AllocError>
    ensures { IfOk result (λ tree. view tree ≡ symbols_value word.now) }
{
    let mut text = Vec::new(alloc);
    for symbol in word {
        text.push(symbol.byte())?;
    }
    text_tree(alloc, text.as_slice())
}

/// A line; null for 0, which is no line.
pub fn line_tree(line: u32) -> Tree
    ensures { view result ≡ line_value line }
{
    count_or_null(if line == 0 { None } else { Some(line) })
}

/// A line of a record that is not read although it looks like an event: its number, and why.
fn unread_tree(alloc: Global, unread: UnreadLine) -> Result<Tree, AllocError>
    ensures { IfOk result (λ tree. view tree ≡ unread_object unread) }
{
    let fields = vec![in alloc;
        ("line", count_tree(unread.line)),
        ("why", name_tree(unread.why.name())),
    ]?;
    Ok(object(fields))
}

/// The lines that are not read, in their order.
pub fn unread_array(alloc: Global, lines: &[UnreadLine]) -> Result<Tree, AllocError>
    ensures { IfOk result (λ tree. view tree ≡ unread_value lines.now) }
{
    let mut trees = Vec::new(alloc);
    for unread in lines {
        trees.push(unread_tree(alloc, *unread)?)?;
    }
    Ok(array(trees))
}
