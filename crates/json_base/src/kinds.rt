//! What goes with the kind of an event, as trees.
ghost use Rattle.std.specs.Prelude.{◌≡◌, IfOk};
ghost use Rattle.json_trees.specs.Trees.{view};
ghost use Rattle.json_base.specs.Kinds.{kind_direction, kind_number, kind_place, kind_symbols, kind_tiles};

use crate::names::direction_of;
use crate::values::{place_tree, symbols_tree, tiles_tree};
use gcg_read::EventKind;
use json_trees::{Tree, count_tree, name_tree, null_tree};
use std::alloc::{AllocError, Global};

/// Of a play where it begins; null for every other event.
pub fn kind_place_tree(alloc: Global, kind: &EventKind) -> Result<Tree, AllocError>
    ensures { IfOk result (λ tree. view tree ≡ kind_place kind.now) }
{
    match kind {
        EventKind::Play { at, dir, .. } => place_tree(alloc, *at, *dir),
        EventKind::Pass
        | EventKind::Exchange(_)
        | EventKind::ExchangeUnknown(_)
        | EventKind::Withdraw
        | EventKind::Challenge
        | EventKind::Time
        | EventKind::LastRack(_) => Ok(null_tree()),
    }
}

/// Of a play its direction; null for every other event.
pub fn kind_direction_tree(kind: &EventKind) -> Tree
    ensures { view result ≡ kind_direction kind.now }
{
    match kind {
        EventKind::Play { dir, .. } => name_tree(direction_of(*dir)),
        EventKind::Pass
        | EventKind::Exchange(_)
        | EventKind::ExchangeUnknown(_)
        | EventKind::Withdraw
        | EventKind::Challenge
        | EventKind::Time
        | EventKind::LastRack(_) => null_tree(),
    }
}

/// Of a play its text; null for every other event.
pub fn kind_symbols_tree(alloc: Global, kind: &EventKind) -> Result<Tree, AllocError>
    ensures { IfOk result (λ tree. view tree ≡ kind_symbols kind.now) }
{
    match kind {
        EventKind::Play { word, .. } => symbols_tree(alloc, word.as_slice()),
        EventKind::Pass
        | EventKind::Exchange(_)
        | EventKind::ExchangeUnknown(_)
        | EventKind::Withdraw
        | EventKind::Challenge
        | EventKind::Time
        | EventKind::LastRack(_) => Ok(null_tree()),
    }
}

/// Of an exchange or a last rack its tiles, as far as they are known; null for every other event.
pub fn kind_tiles_tree(alloc: Global, kind: &EventKind) -> Result<Tree, AllocError>
    ensures { IfOk result (λ tree. view tree ≡ kind_tiles kind.now) }
{
    match kind {
        EventKind::Exchange(tiles) | EventKind::LastRack(tiles) => tiles_tree(alloc, tiles),
        EventKind::Play { .. }
        | EventKind::Pass
        | EventKind::ExchangeUnknown(_)
        | EventKind::Withdraw
        | EventKind::Challenge
        | EventKind::Time => Ok(null_tree()),
    }
}

/// Of an exchange whose tiles are not known how many they are; null for every other event.
pub fn kind_number_tree(kind: &EventKind) -> Tree
    ensures { view result ≡ kind_number kind.now }
{
    match kind {
        EventKind::ExchangeUnknown(number) => count_tree(u32::from(*number)),
        EventKind::Play { .. }
        | EventKind::Pass
        | EventKind::Exchange(_)
        | EventKind::Withdraw
        | EventKind::Challenge
        | EventKind::Time
        | EventKind::LastRack(_) => null_tree(),
    }
}
