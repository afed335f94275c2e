//! Facts about a play with another tile in one place, as trees.
ghost use Rattle.std.specs.Prelude.{◌≡◌, IfOk};
ghost use Rattle.json_trees.specs.Trees.{view};
ghost use Rattle.explain_json.specs.Plays.{as_blank_object, misread_object, not_on_rack_object, reading_object};

use crate::fact_parts::{byte_tree, square_tree, words_tree};
use explain_facts::ReadingFact;
use game_turns::SpelledWord;
use json_base::{tile_tree, tiles_tree};
use json_trees::{Tree, integer_tree, name_tree, object, size_tree};
use ref_board::Square;
use ref_tiles::{Counts, Kind};
use std::alloc::{AllocError, Global};

/// That a letter is read as a blank.
fn as_blank(
    alloc: Global,
    square: Square,
    letter: u8,
    read: u8,
    score: i32,
) -> Result<Tree, AllocError>
    ensures { IfOk result (λ tree. view tree ≡ as_blank_object square letter read score) }
{
    let square = square_tree(alloc, square)?;
    let letter = byte_tree(alloc, letter)?;
    let read = byte_tree(alloc, read)?;
    let fields = vec![in alloc;
        ("name", name_tree("AsBlank")),
        ("square", square),
        ("letter", letter),
        ("read", read),
        ("score", integer_tree(score)),
    ]?;
    Ok(object(fields))
}

/// That a play uses more tiles of a kind than the rack has.
fn not_on_rack(
    alloc: Global,
    kind: Kind,
    played: usize,
    has: usize,
    rack: &Counts,
) -> Result<Tree, AllocError>
    ensures { IfOk result (λ tree. view tree ≡ not_on_rack_object kind played has rack.now) }
{
    let tile = tile_tree(alloc, kind)?;
    let rack = tiles_tree(alloc, rack)?;
    let fields = vec![in alloc;
        ("name", name_tree("NotOnRack")),
        ("tile", tile),
        ("rack", rack),
        ("number", size_tree(played)),
        ("limit", size_tree(has)),
    ]?;
    Ok(object(fields))
}

/// That a letter is misread.
fn misread(
    alloc: Global,
    square: Square,
    letter: u8,
    read: u8,
    words: &[SpelledWord],
    score: i32,
    written: i32,
) -> Result<Tree, AllocError>
    ensures { IfOk result (λ tree. view tree ≡ misread_object square letter read words.now score written) }
{
    let square = square_tree(alloc, square)?;
    let letter = byte_tree(alloc, letter)?;
    let read = byte_tree(alloc, read)?;
    let words = words_tree(alloc, words)?;
    let fields = vec![in alloc;
        ("name", name_tree("Misread")),
        ("square", square),
        ("letter", letter),
        ("read", read),
        ("score", integer_tree(score)),
        ("written", integer_tree(written)),
        ("words", words),
    ]?;
    Ok(object(fields))
}

/// A fact.
pub fn reading_tree(alloc: Global, fact: &ReadingFact) -> Result<Tree, AllocError>
    ensures { IfOk result (λ tree. view tree ≡ reading_object fact.now) }
{
    match fact {
        ReadingFact::AsBlank {
            square,
            letter,
            read,
            score,
        } => as_blank(alloc, *square, *letter, *read, *score),
        ReadingFact::NotOnRack {
            kind,
            played,
            has,
            rack,
        } => not_on_rack(alloc, *kind, *played, *has, rack),
        ReadingFact::Misread {
            square,
            letter,
            read,
            words,
            score,
            written,
        } => misread(
            alloc,
            *square,
            *letter,
            *read,
            words.as_slice(),
            *score,
            *written,
        ),
    }
}
