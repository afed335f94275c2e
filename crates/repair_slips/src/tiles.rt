//! What may be wrong with tiles.
ghost use Rattle.std.specs.Prelude.{◌≡◌, ◌++◌, ◌<◌, OnOk};
ghost use Rattle.repair_slips.specs.Each.{for_kind, for_kinds};
ghost use Rattle.repair_slips.specs.Tiles.{has, other_tile, other_for, other_tiles, extra_tile, extra_tiles, missing_tile, missing_tiles, tile_slips};

use crate::adding::add;
use ref_tiles::{Counts, KINDS, Kind};
use repair_changes::{Slip, TileSlip, TilesOf};
use std::alloc::AllocError;

/// Whether a tile of this kind is among the tiles.
pub(crate) fn has(counts: &Counts, tile: Kind) -> bool
    ensures { result ≡ has counts.now tile }
{
    counts.count(tile) > 0
}

/// Adds the tile with a number in place of another one.
fn push_other_tile(
    slips: &mut Vec<Slip>,
    of: TilesOf,
    tile: Kind,
    number: usize,
) -> Result<(), AllocError>
    requires { number < 27 }
    ensures { OnOk result (slips.new.items ≡ slips.old.items ++ for_kind (other_tile of tile) number) }
{
    let right = Kind::at(number);
    if right.number() == tile.number() {
        return Ok(());
    }
    let slip = TileSlip::Other { tile, right };
    add(slips, Slip::Tile { of, slip })
}

/// Adds each other tile in place of one.
fn push_each_other(slips: &mut Vec<Slip>, of: TilesOf, tile: Kind) -> Result<(), AllocError>
    ensures { OnOk result (slips.new.items ≡ slips.old.items ++ for_kinds (other_tile of tile)) }
{
    for number in 0..KINDS {
        push_other_tile(slips, of, tile, number)?;
    }
    Ok(())
}

/// Adds each other tile in place of the one with a number, if that is there.
fn push_other_for(
    slips: &mut Vec<Slip>,
    of: TilesOf,
    counts: &Counts,
    number: usize,
) -> Result<(), AllocError>
    requires { number < 27 }
    ensures { OnOk result (slips.new.items ≡ slips.old.items ++ for_kind (other_for of counts.now) number) }
{
    let tile = Kind::at(number);
    if has(counts, tile) {
        push_each_other(slips, of, tile)
    } else {
        Ok(())
    }
}

/// Adds that a tile is a different one, for each tile that is there.
#[tactic(auto, unfolding(crate::specs::Tiles::other_tiles))]
pub(crate) fn push_other_tiles(
    slips: &mut Vec<Slip>,
    of: TilesOf,
    counts: &Counts,
) -> Result<(), AllocError>
    ensures { OnOk result (slips.new.items ≡ slips.old.items ++ other_tiles of counts.now) }
{
    for number in 0..KINDS {
        push_other_for(slips, of, counts, number)?;
    }
    Ok(())
}

/// Adds that the tile with a number should not be there, if it is there.
fn push_extra_tile(
    slips: &mut Vec<Slip>,
    of: TilesOf,
    counts: &Counts,
    number: usize,
) -> Result<(), AllocError>
    requires { number < 27 }
    ensures { OnOk result (slips.new.items ≡ slips.old.items ++ for_kind (extra_tile of counts.now) number) }
{
    let tile = Kind::at(number);
    if !has(counts, tile) {
        return Ok(());
    }
    let slip = TileSlip::Extra { tile };
    add(slips, Slip::Tile { of, slip })
}

/// Adds the same for each tile that is there.
fn push_each_extra(slips: &mut Vec<Slip>, of: TilesOf, counts: &Counts) -> Result<(), AllocError>
    ensures { OnOk result (slips.new.items ≡ slips.old.items ++ for_kinds (extra_tile of counts.now)) }
{
    for number in 0..KINDS {
        push_extra_tile(slips, of, counts, number)?;
    }
    Ok(())
}

/// Adds that a tile should not be there, for each tile unless it is the only one.
#[tactic(auto, unfolding(crate::specs::Tiles::extra_tiles))]
pub(crate) fn push_extra_tiles(
    slips: &mut Vec<Slip>,
    of: TilesOf,
    counts: &Counts,
) -> Result<(), AllocError>
    ensures { OnOk result (slips.new.items ≡ slips.old.items ++ extra_tiles of counts.now) }
{
    if counts.total() > 1 {
        push_each_extra(slips, of, counts)
    } else {
        Ok(())
    }
}

/// Adds that the tile with a number is missing.
fn push_missing_tile(slips: &mut Vec<Slip>, of: TilesOf, number: usize) -> Result<(), AllocError>
    requires { number < 27 }
    ensures { OnOk result (slips.new.items ≡ slips.old.items ++ for_kind (missing_tile of) number) }
{
    let slip = TileSlip::Missing {
        tile: Kind::at(number),
    };
    add(slips, Slip::Tile { of, slip })
}

/// Adds that a tile is missing, for each kind.
fn push_each_missing(slips: &mut Vec<Slip>, of: TilesOf) -> Result<(), AllocError>
    ensures { OnOk result (slips.new.items ≡ slips.old.items ++ for_kinds (missing_tile of)) }
{
    for number in 0..KINDS {
        push_missing_tile(slips, of, number)?;
    }
    Ok(())
}

/// Adds that a tile is missing, for each kind, if there are fewer than seven.
#[tactic(auto, unfolding(crate::specs::Tiles::missing_tiles))]
fn push_missing_tiles(slips: &mut Vec<Slip>, of: TilesOf, counts: &Counts) -> Result<(), AllocError>
    ensures { OnOk result (slips.new.items ≡ slips.old.items ++ missing_tiles of counts.now) }
{
    if counts.total() < 7 {
        push_each_missing(slips, of)
    } else {
        Ok(())
    }
}

/// Adds all that may be wrong with the tiles of an exchange or of a last rack.
#[tactic(auto, unfolding(crate::specs::Tiles::tile_slips))]
pub(crate) fn push_tiles(
    slips: &mut Vec<Slip>,
    of: TilesOf,
    counts: &Counts,
) -> Result<(), AllocError>
    ensures { OnOk result (slips.new.items ≡ slips.old.items ++ tile_slips of counts.now) }
{
    push_other_tiles(slips, of, counts)?;
    push_extra_tiles(slips, of, counts)?;
    push_missing_tiles(slips, of, counts)
}
