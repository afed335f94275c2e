//! The repair of a record that is likelier than all others by far.
ghost use Rattle.std.specs.Prelude.{◌≡◌, IfOk, OnOk};
ghost use Rattle.game_walk.specs.Walks.{IsWalkOf};
ghost use Rattle.game_case.specs.Explaining.{HasItsWalk};
ghost use Rattle.lex_check.specs.Pairs.{list_in};
ghost use Rattle.repair_answers.specs.Choices.{all_known};
ghost use Rattle.repair_answers.specs.Likely.{IsFirstChange, IsFirstSheet, IsLikelyOf, IsLikely, IsLikelyFor, IsLikelyOfCase};

use crate::answers::below_of;
use crate::choices::{Choice, choice_among};
use crate::lists::limit_within;
use crate::no_change::unchanged;
use crate::numbers_alone::NumbersAlone;
use crate::sheet_repair::SheetRepair;
use crate::sheets::sheet_repairs;
use crate::singles::first_repairs;
use game_case::{Case, Entry, Finding};
use game_walk::Walk;
use gcg_read::Record;
use lex_check::Checked;
use ref_tiles::Rules;
use repair_pairs::{Pair, pairs};
use repair_single::{Found, Repair};
use std::alloc::{AllocError, Global};

/// How many repairs are looked for: the first, two that only say less, and another one.
const WANTED: usize = 4;

/// How many steps the search for single changes may take at least: about as many as the events that it goes over.
const STEPS: u64 = 500_000;

/// How many steps each search for the second of two changes may take.
const PAIR_STEPS: u64 = 250_000;

/// What repairs a record and is likelier than all else by far.
#[derive(Drop)]
pub enum Likely {
    /// A single change.
    Change(Repair),
    /// A slip of the whole sheet.
    Sheet(SheetRepair),
}

impl Likely {
    /// The change, if it is a single one.
    pub fn as_change(&self) -> Option<&Repair> {
        match self {
            Likely::Change(repair) => Some(repair),
            Likely::Sheet(_) => None,
        }
    }
}

/// The first of some repairs.
fn first_change(reported: Vec<Repair>) -> Option<Likely>
    ensures { IsFirstChange reported.items result }
{
    match reported.into_iter().next() {
        Some(repair) => Some(Likely::Change(repair)),
        None => None,
    }
}

/// The first of some slips of the whole sheet.
fn first_sheet(sheets: Vec<SheetRepair>) -> Option<Likely>
    ensures { IsFirstSheet sheets.items result }
{
    match sheets.into_iter().next() {
        Some(repair) => Some(Likely::Sheet(repair)),
        None => None,
    }
}

/// The first of the repairs that were found, if it is the likely one, given some pairs that were found too; or the first of the slips of the whole sheet,
/// if it is.
#[tactic(auto, using(crate::proofs::SheetChoices::likely_so))]
fn chosen(
    alone: &Option<NumbersAlone>,
    found: Found,
    pairs: &[Pair],
    sheets: Vec<SheetRepair>,
) -> Option<Likely>
    ensures { IsLikelyOf alone.now found.reported.items (all_known found.remaining.items found.from) pairs.now sheets.items result }
{
    match choice_among(&found, pairs, sheets.as_slice(), alone) {
        Choice::Clear(_) => first_change(found.reported),
        Choice::Sheet(_) => first_sheet(sheets),
        Choice::None => None,
        Choice::Open => None,
        Choice::Numbers => None,
        Choice::Pair => None,
        Choice::NearNumbers => None,
        Choice::Close => None,
        Choice::NearSheet => None,
    }
}

/// The likely repair of a record, given the walk over it and its text: the first, if it is ahead by at least a wrong number of all others, but for those that only say less, of the
/// slips of the whole sheet and the record with only its numbers corrected, and if no two changes cost less; or a slip of the whole sheet that is ahead of
/// all of them, without which every number is right. There is none if the search took too many steps to try each change, but each is tried if the changes,
/// each counted once for each event, are no more than 500,000. Afterwards the record is as it was.
///
/// It fails only if memory runs out.
fn likely_repair(
    alloc: Global,
    rules: &Rules,
    pair: &Checked<'_>,
    game: &mut Record,
    walk: &Walk,
    text: &[u8],
) -> Result<Option<Likely>, AllocError>
    requires { IsWalkOf rules.now (list_in pair.now) game.old.events walk.now }
    ensures likely { IfOk result (IsLikely rules.now (list_in pair.now) text.now game.old.events) }
    ensures same { OnOk result (game.new ≡ game.old) }
{
    let list = pair.list();
    let alone = unchanged(alloc, rules, list, game)?;
    let below = below_of(&alone);
    let events = game.events.as_slice();
    let limit = limit_within(alloc, rules, list, walk, events, STEPS)?;
    let singles = first_repairs(
        alloc, rules, pair, walk, events, &alone, below, WANTED, limit,
    )?;
    let two = pairs(
        alloc,
        rules,
        list,
        &mut game.events,
        singles.found.reported.as_slice(),
        1,
        PAIR_STEPS,
    )?;
    let sheets = sheet_repairs(
        alloc,
        rules,
        list,
        text,
        game.events.as_slice(),
        walk,
        &alone,
    )?;
    Ok(chosen(&alone, singles.found, two.reported.as_slice(), sheets))
}

/// The likely repair of a record that was judged, if it is illegal, given the walk over it and its text. Afterwards the entry is as it was.
fn likely_in(
    alloc: Global,
    rules: &Rules,
    pair: &Checked<'_>,
    entry: &mut Entry,
    walk: &Walk,
    text: &[u8],
) -> Result<Option<Likely>, AllocError>
    requires { IsWalkOf rules.now (list_in pair.now) entry.old.record.events walk.now }
    ensures likely { IfOk result (IsLikelyFor rules.now (list_in pair.now) entry.old.finding text.now entry.old.record.events) }
    ensures same { OnOk result (entry.new ≡ entry.old) }
{
    match entry.finding {
        Finding::Illegal { .. } => likely_repair(alloc, rules, pair, &mut entry.record, walk, text),
        _ => Ok(None),
    }
}

/// The likely repair of the record of a case, if it is illegal. Afterwards the case is as it was.
///
/// It fails only if memory runs out.
#[tactic(auto, using(crate::proofs::Answered::none_likely, crate::proofs::Answered::walked_entry))]
pub fn likely_in_case(
    alloc: Global,
    rules: &Rules,
    pair: &Checked<'_>,
    case: &mut Case,
) -> Result<Option<Likely>, AllocError>
    requires { HasItsWalk rules.now (list_in pair.now) case.old }
    ensures likely { IfOk result (IsLikelyOfCase rules.now (list_in pair.now) case.old.text.items case.old.read) }
    ensures same { OnOk result (case.new ≡ case.old) }
{
    let Some(walk) = &case.walk else {
        return Ok(None);
    };
    match &mut case.read {
        Ok(entry) => likely_in(alloc, rules, pair, entry, walk, case.text.as_slice()),
        Err(_) => Ok(None),
    }
}
