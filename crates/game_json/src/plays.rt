//! Plays as trees.
ghost use Rattle.std.specs.Prelude.{◌≡◌, IfOk};
ghost use Rattle.json_trees.specs.Trees.{view};
ghost use Rattle.game_json.specs.Plays.{best_object, placed_byte, placed_value};

use game_bests::BestPlay;
use json_base::{direction_of, place_tree, symbols_tree};
use json_trees::{Tree, integer_tree, large_integer_tree, name_tree, object, text_tree};
use ref_play::Placed;
use ref_tiles::{Kind, Symbol};
use std::alloc::{AllocError, Global};

/// The byte of a tile that is put down: a capital, or a small letter for a blank.
fn tile_byte(placed: &Placed) -> u8
    ensures { result ≡ placed_byte placed.now }
{
    match placed.tile.kind {
        Kind::Letter(letter) => Symbol::Letter(letter).byte(),
        Kind::Blank => Symbol::Blank(placed.tile.shown).byte(),
    }
}

/// The tiles that are put down, in the order of their squares.
pub fn placed_tree(alloc: Global, tiles: &[Placed]) -> Result<Tree, AllocError>
    ensures { IfOk result (λ tree. view tree ≡ placed_value tiles.now) }
{
    let mut text = Vec::new(alloc);
    for placed in tiles {
        text.push(tile_byte(placed))?;
    }
    text_tree(alloc, text.as_slice())
}

/// The best play of a turn.
pub fn best_tree(alloc: Global, best: &BestPlay) -> Result<Tree, AllocError>
    ensures { IfOk result (λ tree. view tree ≡ best_object best.now) }
{
    let written = &best.written;
    let place = place_tree(alloc, written.at, written.dir)?;
    let symbols = symbols_tree(alloc, written.word.as_slice())?;
    let fields = vec![in alloc;
        ("place", place),
        ("direction", name_tree(direction_of(written.dir))),
        ("text", symbols),
        ("score", integer_tree(best.score)),
        ("more", large_integer_tree(best.more)),
    ]?;
    Ok(object(fields))
}
