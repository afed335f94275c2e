//! What lines show of racks, as trees.
ghost use Rattle.std.specs.Prelude.{◌≡◌, IfOk, option_map};
ghost use Rattle.json_trees.specs.Trees.{view};
ghost use Rattle.explain_json.specs.Lines.{clash_object, clash_value, exchange_object, exchanged_of, exchanges_value, kind_line_object, kind_lines_value, part_object, parts_value, played_of, rack_line_object, rack_lines_value};

use explain_facts::{ClashLine, ExchangeLine, KindLine, Leaving, RackLine, RackPart};
use gcg_read::Seat;
use json_base::{number_of, tiles_tree};
use json_trees::{Tree, array, count_tree, object, size_tree, with_field_if};
use std::alloc::{AllocError, Global};

/// The tiles that a line plays of a rack, if it plays some.
fn played_tree(alloc: Global, leaves: &Leaving) -> Result<Option<Tree>, AllocError>
    ensures { IfOk result (λ tree. option_map view tree ≡ played_of leaves.now) }
{
    match leaves {
        Leaving::Plays(tiles) => Ok(Some(tiles_tree(alloc, tiles)?)),
        Leaving::Nothing | Leaving::Exchanges(_) => Ok(None),
    }
}

/// The tiles that a line exchanges of a rack, if it exchanges some.
fn exchanged_tree(alloc: Global, leaves: &Leaving) -> Result<Option<Tree>, AllocError>
    ensures { IfOk result (λ tree. option_map view tree ≡ exchanged_of leaves.now) }
{
    match leaves {
        Leaving::Exchanges(tiles) => Ok(Some(tiles_tree(alloc, tiles)?)),
        Leaving::Nothing | Leaving::Plays(_) => Ok(None),
    }
}

/// What a line shows of a player's rack.
fn rack_line_tree(alloc: Global, player: Seat, line: &RackLine) -> Result<Tree, AllocError>
    ensures { IfOk result (λ tree. view tree ≡ rack_line_object player line.now) }
{
    let shown = tiles_tree(alloc, &line.shown)?;
    let played = played_tree(alloc, &line.leaves)?;
    let exchanged = exchanged_tree(alloc, &line.leaves)?;
    let fields = vec![in alloc;
        ("line", count_tree(line.line)),
        ("player", count_tree(number_of(player))),
        ("shown", shown),
    ]?;
    let fields = with_field_if(fields, "played", played)?;
    let fields = with_field_if(fields, "exchanged", exchanged)?;
    Ok(object(fields))
}

/// What lines show of a player's rack.
pub fn rack_lines(alloc: Global, player: Seat, lines: &[RackLine]) -> Result<Tree, AllocError>
    ensures { IfOk result (λ tree. view tree ≡ rack_lines_value player lines.now) }
{
    let mut trees = Vec::new(alloc);
    for line in lines {
        trees.push(rack_line_tree(alloc, player, line)?)?;
    }
    Ok(array(trees))
}

/// Some tiles that a line shows of a rack.
fn clash_tree(alloc: Global, line: &ClashLine) -> Result<Tree, AllocError>
    ensures { IfOk result (λ tree. view tree ≡ clash_object line.now) }
{
    let shown = tiles_tree(alloc, &line.tiles)?;
    let fields = vec![in alloc;
        ("line", count_tree(line.line)),
        ("player", count_tree(number_of(line.player))),
        ("shown", shown),
    ]?;
    Ok(object(fields))
}

/// Some tiles that lines show of racks.
pub fn clash_lines(alloc: Global, lines: &[ClashLine]) -> Result<Tree, AllocError>
    ensures { IfOk result (λ tree. view tree ≡ clash_value lines.now) }
{
    let mut trees = Vec::new(alloc);
    for line in lines {
        trees.push(clash_tree(alloc, line)?)?;
    }
    Ok(array(trees))
}

/// How many tiles of a kind a line shows, and how many it plays.
fn kind_line_tree(alloc: Global, line: &KindLine) -> Result<Tree, AllocError>
    ensures { IfOk result (λ tree. view tree ≡ kind_line_object line.now) }
{
    let fields = vec![in alloc;
        ("line", count_tree(line.line)),
        ("player", count_tree(number_of(line.player))),
        ("number_shown", size_tree(line.shown)),
        ("number_played", size_tree(line.played)),
    ]?;
    Ok(object(fields))
}

/// How many tiles of a kind lines show.
pub fn kind_lines(alloc: Global, lines: &[KindLine]) -> Result<Tree, AllocError>
    ensures { IfOk result (λ tree. view tree ≡ kind_lines_value lines.now) }
{
    let mut trees = Vec::new(alloc);
    for line in lines {
        trees.push(kind_line_tree(alloc, line)?)?;
    }
    Ok(array(trees))
}

/// A rack that is shown in part.
fn part_tree(alloc: Global, part: &RackPart) -> Result<Tree, AllocError>
    ensures { IfOk result (λ tree. view tree ≡ part_object part.now) }
{
    let fields = vec![in alloc;
        ("line", count_tree(part.line)),
        ("player", count_tree(number_of(part.player))),
        ("number_shown", size_tree(part.shown)),
        ("number_held", size_tree(part.has)),
    ]?;
    Ok(object(fields))
}

/// Racks that are shown in part.
pub fn part_lines(alloc: Global, parts: &[RackPart]) -> Result<Tree, AllocError>
    ensures { IfOk result (λ tree. view tree ≡ parts_value parts.now) }
{
    let mut trees = Vec::new(alloc);
    for part in parts {
        trees.push(part_tree(alloc, part)?)?;
    }
    Ok(array(trees))
}

/// An exchange.
fn exchange_tree(alloc: Global, line: &ExchangeLine) -> Result<Tree, AllocError>
    ensures { IfOk result (λ tree. view tree ≡ exchange_object line.now) }
{
    let fields = vec![in alloc;
        ("line", count_tree(line.line)),
        ("player", count_tree(number_of(line.player))),
        ("number_exchanged", size_tree(line.tiles)),
    ]?;
    Ok(object(fields))
}

/// Exchanges.
pub fn exchange_lines(alloc: Global, lines: &[ExchangeLine]) -> Result<Tree, AllocError>
    ensures { IfOk result (λ tree. view tree ≡ exchanges_value lines.now) }
{
    let mut trees = Vec::new(alloc);
    for line in lines {
        trees.push(exchange_tree(alloc, line)?)?;
    }
    Ok(array(trees))
}
