//! A change of the list, by its place and its number there.
ghost use Rattle.std.specs.Prelude.{[], IfOk, IfSome};
ghost use Rattle.game_walk.specs.Walks.{IsWalkOf};
ghost use Rattle.repair_single.specs.Repairs.{IsListed};

use game_walk::Walk;
use gcg_read::Event;
use lex_list::WordList;
use ref_tiles::Rules;
use repair_changes::Change;
use repair_single::{Listed, game_before};
use repair_slips::{law_of_slips, slips_at};
use std::alloc::{AllocError, Global};

/// The change with a number among those at a place, if there is one.
///
/// It fails only if memory runs out.
pub(crate) fn listed_at(
    alloc: Global,
    rules: &Rules,
    list: &WordList,
    walk: &Walk,
    events: &[Event],
    place: usize,
    index: usize,
) -> Result<Option<Listed>, AllocError>
    requires { IsWalkOf rules.now list.now events.now walk.now }
    ensures { IfOk result (λ found. IfSome found (IsListed rules.now events.now [])) }
{
    law_of_slips();
    let Some(game) = game_before(walk, place) else {
        return Ok(None);
    };
    let mut slips = slips_at(alloc, rules, game, events, place)?;
    if index >= slips.len() {
        return Ok(None);
    }
    let slip = slips.swap_remove(index);
    let change = Change { place, slip };
    Ok(Some(Listed { change, index }))
}
