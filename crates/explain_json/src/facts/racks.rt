//! Facts about racks, as trees.
ghost use Rattle.std.specs.Prelude.{◌≡◌, IfOk};
ghost use Rattle.json_trees.specs.Trees.{view};
ghost use Rattle.explain_json.specs.Racks.{left_over_object, rack_object, short_object, too_big_object};

use crate::fact_lines::{kind_lines, rack_lines};
use crate::fact_parts::{lines_tree, numbers_tree};
use explain_facts::{KindLine, RackFact, RackLine};
use gcg_read::Seat;
use json_base::{number_of, tile_tree, tiles_tree};
use json_trees::{Tree, count_tree, name_tree, object, size_tree};
use ref_tiles::{Counts, Kind};
use std::alloc::{AllocError, Global};

/// What lines leave on a rack.
fn left_over(
    alloc: Global,
    player: Seat,
    before: u32,
    remaining: &Counts,
    after: u32,
    kind: Kind,
    has: usize,
    had: usize,
) -> Result<Tree, AllocError>
    ensures { IfOk result (λ tree. view tree ≡ left_over_object player before remaining.now after kind has had) }
{
    let tile = tile_tree(alloc, kind)?;
    let remaining = tiles_tree(alloc, remaining)?;
    let lines = lines_tree(alloc, &[before, after])?;
    let fields = vec![in alloc;
        ("name", name_tree("LeftOver")),
        ("player", count_tree(number_of(player))),
        ("tile", tile),
        ("rack", remaining),
        ("number", size_tree(has)),
        ("limit", size_tree(had)),
        ("on_lines", lines),
    ]?;
    Ok(object(fields))
}

/// That a rack would have to hold more tiles than it has.
fn too_big(
    alloc: Global,
    player: Seat,
    size: usize,
    needed: &Counts,
    lines: &[RackLine],
) -> Result<Tree, AllocError>
    ensures { IfOk result (λ tree. view tree ≡ too_big_object player size needed.now lines.now) }
{
    let rack = tiles_tree(alloc, needed)?;
    let lines = rack_lines(alloc, player, lines)?;
    let fields = vec![in alloc;
        ("name", name_tree("RackTooBig")),
        ("player", count_tree(number_of(player))),
        ("rack", rack),
        ("number", size_tree(needed.total())),
        ("limit", size_tree(size)),
        ("lines", lines),
    ]?;
    Ok(object(fields))
}

/// Where the tiles of a kind would have to be of which the game has too few.
fn short(
    alloc: Global,
    kind: Kind,
    all: usize,
    needed: usize,
    laid: usize,
    first: usize,
    second: usize,
    lines: &[KindLine],
) -> Result<Tree, AllocError>
    ensures { IfOk result (λ tree. view tree ≡ short_object kind all needed laid first second lines.now) }
{
    let tile = tile_tree(alloc, kind)?;
    let racks = numbers_tree(alloc, &[first, second])?;
    let lines = kind_lines(alloc, lines)?;
    let fields = vec![in alloc;
        ("name", name_tree("TilesShort")),
        ("tile", tile),
        ("number", size_tree(needed)),
        ("limit", size_tree(all)),
        ("on_board", size_tree(laid)),
        ("on_racks", racks),
        ("lines", lines),
    ]?;
    Ok(object(fields))
}

/// A fact.
pub fn rack_tree(alloc: Global, fact: &RackFact) -> Result<Tree, AllocError>
    ensures { IfOk result (λ tree. view tree ≡ rack_object fact.now) }
{
    match fact {
        RackFact::LeftOver {
            player,
            before,
            remaining,
            after,
            kind,
            has,
            had,
        } => left_over(
            alloc, *player, *before, remaining, *after, *kind, *has, *had,
        ),
        RackFact::TooBig {
            player,
            size,
            needed,
            lines,
        } => too_big(alloc, *player, *size, needed, lines.as_slice()),
        RackFact::TilesShort {
            kind,
            all,
            needed,
            laid,
            first,
            second,
            lines,
        } => short(
            alloc,
            *kind,
            *all,
            *needed,
            *laid,
            *first,
            *second,
            lines.as_slice(),
        ),
    }
}
