//! The answer on an illegal record, given its first repairs.
ghost use Rattle.std.specs.Prelude.{◌≡◌, [], IfOk};
ghost use Rattle.game_walk.specs.Walks.{IsWalkOf};
ghost use Rattle.repair_answers.specs.Given.{IsFaultyWith};

use crate::answers::Faulty;
use crate::evidence::{before_numbers, lines_of};
use crate::lists::tries_from;
use crate::numbers_alone::NumbersAlone;
use crate::trades::keep_reported;
use game_walk::Walk;
use gcg_read::Event;
use lex_list::WordList;
use ref_tiles::Rules;
use repair_changes::Change;
use repair_pairs::Pairs;
use repair_single::Found;
use std::alloc::{AllocError, Global};

/// No pairs of changes.
fn no_pairs(alloc: Global) -> Pairs
    ensures { result.reported.items ≡ [] }
{
    Pairs {
        heads: Vec::new(alloc),
        reported: Vec::new(alloc),
    }
}

/// The answer on an illegal record, given what is wrong if only its numbers are, the plays that were tried and the first repairs: those that are listed, in at
/// most `most` lines, and how many changes were tried. No pairs of changes and no slips of the whole sheet are looked for.
///
/// It fails only if memory runs out.
pub(crate) fn faulty_with(
    alloc: Global,
    rules: &Rules,
    list: &WordList,
    walk: &Walk,
    events: &[Event],
    alone: Option<NumbersAlone>,
    plays: Vec<Change>,
    found: Found,
    most: usize,
) -> Result<Faulty, AllocError>
    requires { IsWalkOf rules.now list.now events.now walk.now }
    ensures { IfOk result (IsFaultyWith rules.now events.now walk.now alone plays.items found most) }
{
    let mut found = found;
    keep_reported(&alone, &mut found.reported);
    let lines = lines_of(alloc, found.reported.as_slice(), most)?;
    let before_numbers = before_numbers(&alone, found.reported.as_slice(), lines.as_slice());
    let tries = tries_from(alloc, rules, list, walk, events, found.from, plays.len())?;
    Ok(Faulty {
        alone,
        plays,
        found,
        lines,
        before_numbers,
        pairs: no_pairs(alloc),
        pair_lines: Vec::new(alloc),
        sheets: Vec::new(alloc),
        changes: tries.changes,
        tried: tries.tried,
        untried: tries.untried,
    })
}
