//! The answer of `repair`.
ghost use Rattle.std.specs.Prelude.{◌≡◌, Some, IfOk, OnOk};
ghost use Rattle.game_walk.specs.Walks.{IsWalkOf};
ghost use Rattle.game_case.specs.Explaining.{HasItsWalk};
ghost use Rattle.lex_check.specs.Pairs.{list_in};
ghost use Rattle.repair_answers.specs.BadRecords.{RepairsOfLine};
ghost use Rattle.repair_answers.specs.Answers.{below_of, is_illegal, RepairsIn, RepairsBy, RepairsOf, IsRepairAnswer};

use crate::bad_records::{LineRepairs, repairs_of_line};
use crate::chains::chain_of;
use crate::evidence::{Reported, before_numbers, lines_of};
use crate::lists::{search_limit, tries_from};
use crate::no_change::unchanged;
use crate::numbers_alone::NumbersAlone;
use crate::sheet_repair::SheetRepair;
use crate::sheets::sheet_repairs;
use crate::singles::first_repairs;
use engine_stages::Verdict;
use game_case::{Case, Entry, Finding, case_verdict};
use game_walk::Walk;
use gcg_read::Record;
use lex_check::Checked;
use ref_tiles::Rules;
use repair_changes::{Change, MOST_ALIKE};
use repair_pairs::{Chain, Pairs, pairs};
use repair_single::Found;
use std::alloc::{AllocError, Global};

/// How many steps each search for the second of two changes may take: about as many as the events that it goes over.
const PAIR_STEPS: u64 = 1_000_000;

/// The answer on an illegal record.
#[derive(Drop)]
pub struct Faulty {
    /// What is wrong if only the numbers are; `None` if more is wrong.
    pub alone: Option<NumbersAlone>,
    /// Changes of plays that a search found, if no repair by the list of changes is a likely one. They are tried too.
    pub plays: Vec<Change>,
    /// The first repairs, and the changes that are left open.
    pub found: Found,
    /// The first repairs in lines.
    pub lines: Vec<Reported>,
    /// How many of these lines cost less than correcting only the numbers.
    pub before_numbers: usize,
    /// Pairs of changes that repair it and cost less than each of the first repairs.
    pub pairs: Pairs,
    /// The pairs in lines.
    pub pair_lines: Vec<Reported>,
    /// The slips of the whole sheet that repair it, those that cost least first.
    pub sheets: Vec<SheetRepair>,
    /// How many changes there are, with those of plays that a search found.
    pub changes: u128,
    /// How many of them were tried.
    pub tried: u128,
    /// How many of them were not tried, since the search took too many steps: those at the first places.
    pub untried: u128,
}

/// The answer on a record.
#[derive(Drop)]
pub struct RepairAnswer {
    /// The verdict, by a search.
    pub verdict: Verdict,
    /// What repairs it, if it is illegal.
    pub faulty: Option<Faulty>,
    /// Several changes that repair it one after the other, if they are likelier than anything simpler.
    pub chain: Option<Chain>,
    /// What repairs the text, if it is not a record.
    pub of_line: Option<LineRepairs>,
}

/// Fewer numbers and words than this may stay wrong with a repair; `None` if any number may.
pub(crate) fn below_of(alone: &Option<NumbersAlone>) -> Option<usize>
    ensures { result ≡ below_of alone.now }
{
    match alone {
        Some(alone) => Some(alone.remains.wrong.len() + alone.remains.unlisted.len()),
        None => None,
    }
}

/// What repairs an illegal record, given its text, in at most `most` lines.
fn faulty_of(
    alloc: Global,
    rules: &Rules,
    pair: &Checked<'_>,
    text: &[u8],
    game: &mut Record,
    walk: &Walk,
    most: usize,
) -> Result<Faulty, AllocError>
    requires { IsWalkOf rules.now (list_in pair.now) game.old.events walk.now }
    ensures faulty { IfOk result (RepairsIn rules.now (list_in pair.now) text.now game.old.events walk.now most) }
    ensures same { OnOk result (game.new ≡ game.old) }
{
    let list = pair.list();
    let alone = unchanged(alloc, rules, list, game)?;
    let below = below_of(&alone);
    let wanted = most.saturating_mul(MOST_ALIKE);
    let written = game.events.as_slice();
    let limit = search_limit(alloc, rules, list, walk, written)?;
    let singles = first_repairs(
        alloc, rules, pair, walk, written, &alone, below, wanted, limit,
    )?;
    let reported = singles.found.reported.as_slice();
    let lines = lines_of(alloc, reported, most)?;
    let before = before_numbers(&alone, reported, lines.as_slice());
    let pairs = pairs(
        alloc,
        rules,
        list,
        &mut game.events,
        reported,
        wanted,
        PAIR_STEPS,
    )?;
    let pair_lines = lines_of(alloc, pairs.reported.as_slice(), most)?;
    let events = game.events.as_slice();
    let sheets = sheet_repairs(alloc, rules, list, text, events, walk, &alone)?;
    let from = singles.found.from;
    let plays = singles.plays.len();
    let tries = tries_from(alloc, rules, list, walk, events, from, plays)?;
    Ok(Faulty {
        alone,
        plays: singles.plays,
        found: singles.found,
        lines,
        before_numbers: before,
        pairs,
        pair_lines,
        sheets,
        changes: tries.changes,
        tried: tries.tried,
        untried: tries.untried,
    })
}

/// Whether a record is illegal.
pub(crate) fn is_illegal(finding: &Finding) -> bool
    ensures { result ≡ is_illegal finding.now }
{
    match finding {
        Finding::Illegal { .. } => true,
        Finding::NoGame | Finding::Legal { .. } | Finding::Unsettled => false,
    }
}

/// What repairs the record of an entry, if it is illegal.
#[tactic(auto, using(crate::proofs::Answered::none_legal, crate::proofs::Answered::where_illegal))]
fn faulty_entry(
    alloc: Global,
    rules: &Rules,
    pair: &Checked<'_>,
    text: &[u8],
    entry: &mut Entry,
    walk: &Walk,
    most: usize,
) -> Result<Option<Faulty>, AllocError>
    requires { IsWalkOf rules.now (list_in pair.now) entry.old.record.events walk.now }
    ensures repairs { IfOk result (RepairsBy entry.old.finding rules.now (list_in pair.now) text.now entry.old.record.events (Some walk.now) most) }
    ensures same { OnOk result (entry.new ≡ entry.old) }
{
    if !is_illegal(&entry.finding) {
        return Ok(None);
    }
    let faulty = faulty_of(alloc, rules, pair, text, &mut entry.record, walk, most)?;
    Ok(Some(faulty))
}

/// What repairs the record of a case, if it is illegal.
#[tactic(auto, using(crate::proofs::Answered::none_walked, crate::proofs::Answered::walked_entry))]
fn faulty_in(
    alloc: Global,
    rules: &Rules,
    pair: &Checked<'_>,
    case: &mut Case,
    most: usize,
) -> Result<Option<Faulty>, AllocError>
    requires { HasItsWalk rules.now (list_in pair.now) case.old }
    ensures repairs { IfOk result (RepairsOf case.old.read rules.now (list_in pair.now) case.old.text.items case.old.walk most) }
    ensures same { OnOk result (case.new ≡ case.old) }
{
    let Some(walk) = &case.walk else {
        return Ok(None);
    };
    match &mut case.read {
        Ok(entry) => {
            let text = case.text.as_slice();
            faulty_entry(alloc, rules, pair, text, entry, walk, most)
        }
        Err(_) => Ok(None),
    }
}

/// What repairs the text of a case, if it is not a record.
fn line_repairs_of(
    alloc: Global,
    rules: &Rules,
    pair: &Checked<'_>,
    case: &Case,
    most: usize,
) -> Result<Option<LineRepairs>, AllocError>
    ensures { IfOk result (RepairsOfLine case.now.read rules.now (list_in pair.now) case.now.text.items most) }
{
    match &case.read {
        Ok(_) => Ok(None),
        Err(fault) => {
            let text = case.text.as_slice();
            let repairs = repairs_of_line(alloc, rules, pair.list(), text, fault.line, most)?;
            Ok(Some(repairs))
        }
    }
}

/// The answer of `repair` on the case of a record: its verdict and, if it is illegal or not a record, its first repairs in at most `most` lines. Afterwards
/// the case is as it was.
///
/// It fails only if memory runs out.
///
/// It has the first repairs with what stays wrong with each, in lines of those that are alike; what is wrong with the numbers alone, and whether a
/// deal was found then; pairs that cost less, the slips of the whole sheet that repair it, none left out that makes a game, a chain if one is
/// likelier, how many changes were tried and how many not; and of a text that is not a record what repairs that by its line.
pub fn answer_repairs(
    alloc: Global,
    rules: &Rules,
    pair: &Checked<'_>,
    case: &mut Case,
    most: usize,
) -> Result<RepairAnswer, AllocError>
    requires { HasItsWalk rules.now (list_in pair.now) case.old }
    ensures answer { IfOk result (IsRepairAnswer rules.now (list_in pair.now) case.old most) }
    ensures same { OnOk result (case.new ≡ case.old) }
{
    let verdict = case_verdict(case);
    let faulty = faulty_in(alloc, rules, pair, case, most)?;
    let chain = chain_of(alloc, rules, pair, &mut case.read, &faulty)?;
    let of_line = line_repairs_of(alloc, rules, pair, case, most)?;
    Ok(RepairAnswer {
        verdict,
        faulty,
        chain,
        of_line,
    })
}
