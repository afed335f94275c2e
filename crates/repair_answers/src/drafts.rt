//! The answer of `repair` on a draft: as on its sheet, but that a number which is missing counts nowhere.
ghost use Rattle.std.specs.Prelude.{◌≡◌, Some, IfOk, OnOk};
ghost use Rattle.game_case.specs.Explaining.{HasItsWalk};
ghost use Rattle.game_walk.specs.Walks.{IsWalkOf};
ghost use Rattle.lex_check.specs.Pairs.{list_in};
ghost use Rattle.repair_answers.specs.Drafts.{IsDraftUnchanged, DraftRepairsIn, DraftRepairsBy, DraftRepairsOf, IsDraftAnswer};

use crate::answers::{Faulty, RepairAnswer, below_of, is_illegal};
use crate::given::faulty_with;
use crate::lists::search_limit;
use crate::no_change::unchanged;
use crate::numbers_alone::NumbersAlone;
use crate::singles::found_repairs;
use draft_numbers::wrong_written;
use game_case::{Case, Entry, case_verdict};
use game_walk::Walk;
use gcg_drafts::Missing;
use gcg_read::Record;
use lex_check::Checked;
use lex_list::WordList;
use ref_tiles::Rules;
use repair_changes::MOST_ALIKE;
use repair_single::{Remains, Weigher};
use std::alloc::{AllocError, Global};

/// What is wrong with a draft if only its numbers are: as with its sheet, but of the numbers only those that are written. `None` if more is wrong. Afterwards
/// the record of the sheet is as it was.
///
/// It fails only if memory runs out.
#[tactic(auto, using(crate::proofs::OnDraft::alone_on_draft))]
fn draft_unchanged(
    alloc: Global,
    rules: &Rules,
    list: &WordList,
    lacks: &[Missing],
    game: &mut Record,
) -> Result<Option<NumbersAlone>, AllocError>
    ensures alone { IfOk result (IsDraftUnchanged rules.now list.now lacks.now game.old.events) }
    ensures same { OnOk result (game.new ≡ game.old) }
{
    let Some(alone) = unchanged(alloc, rules, list, game)? else {
        return Ok(None);
    };
    let NumbersAlone {
        remains,
        right,
        is_game,
    } = alone;
    let unlisted = remains.unlisted;
    let wrong = wrong_written(alloc, lacks, game.events.as_slice(), right.as_slice())?;
    Ok(Some(NumbersAlone {
        remains: Remains { wrong, unlisted },
        right,
        is_game,
    }))
}

/// What repairs a draft whose sheet is illegal, in at most `most` lines. Afterwards the record of the sheet is as it was.
fn faulty_draft(
    alloc: Global,
    rules: &Rules,
    pair: &Checked<'_>,
    lacks: &[Missing],
    game: &mut Record,
    walk: &Walk,
    most: usize,
) -> Result<Faulty, AllocError>
    requires { IsWalkOf rules.now (list_in pair.now) game.old.events walk.now }
    ensures faulty { IfOk result (DraftRepairsIn rules.now (list_in pair.now) lacks.now game.old.events walk.now most) }
    ensures same { OnOk result (game.new ≡ game.old) }
{
    let list = pair.list();
    let alone = draft_unchanged(alloc, rules, list, lacks, game)?;
    let events = game.events.as_slice();
    let limit = search_limit(alloc, rules, list, walk, events)?;
    let wanted = most.saturating_mul(MOST_ALIKE);
    let below = below_of(&alone);
    let draft = Vec::from_slice(alloc, lacks)?;
    let weigher = Weigher::Draft(draft);
    let singles = found_repairs(
        alloc, rules, pair, &weigher, walk, events, below, wanted, limit,
    )?;
    let faulty = faulty_with(
        alloc,
        rules,
        list,
        walk,
        events,
        alone,
        singles.plays,
        singles.found,
        most,
    )?;
    Ok(faulty)
}

/// What repairs the draft of an entry, if its sheet is illegal.
#[tactic(auto, using(crate::proofs::DraftsAnswered::none_legal, crate::proofs::DraftsAnswered::where_illegal))]
fn faulty_entry(
    alloc: Global,
    rules: &Rules,
    pair: &Checked<'_>,
    lacks: &[Missing],
    entry: &mut Entry,
    walk: &Walk,
    most: usize,
) -> Result<Option<Faulty>, AllocError>
    requires { IsWalkOf rules.now (list_in pair.now) entry.old.record.events walk.now }
    ensures repairs { IfOk result (DraftRepairsBy entry.old.finding rules.now (list_in pair.now) lacks.now entry.old.record.events (Some walk.now) most) }
    ensures same { OnOk result (entry.new ≡ entry.old) }
{
    if !is_illegal(&entry.finding) {
        return Ok(None);
    }
    let faulty = faulty_draft(alloc, rules, pair, lacks, &mut entry.record, walk, most)?;
    Ok(Some(faulty))
}

/// What repairs the draft of a case, if its sheet is illegal.
#[tactic(auto, using(crate::proofs::DraftsAnswered::none_walked, crate::proofs::Answered::walked_entry))]
fn faulty_in(
    alloc: Global,
    rules: &Rules,
    pair: &Checked<'_>,
    lacks: &[Missing],
    case: &mut Case,
    most: usize,
) -> Result<Option<Faulty>, AllocError>
    requires { HasItsWalk rules.now (list_in pair.now) case.old }
    ensures repairs { IfOk result (DraftRepairsOf case.old.read rules.now (list_in pair.now) lacks.now case.old.walk most) }
    ensures same { OnOk result (case.new ≡ case.old) }
{
    let Some(walk) = &case.walk else {
        return Ok(None);
    };
    match &mut case.read {
        Ok(entry) => faulty_entry(alloc, rules, pair, lacks, entry, walk, most),
        Err(_) => Ok(None),
    }
}

/// The answer of `repair` on a draft, given the case of its sheet and what its lines lack: the verdict of the sheet and, if it is illegal, the first repairs of
/// the draft in at most `most` lines. Afterwards the case is as it was.
///
/// It fails only if memory runs out.
pub fn answer_draft(
    alloc: Global,
    rules: &Rules,
    pair: &Checked<'_>,
    lacks: &[Missing],
    case: &mut Case,
    most: usize,
) -> Result<RepairAnswer, AllocError>
    requires { HasItsWalk rules.now (list_in pair.now) case.old }
    ensures answer { IfOk result (IsDraftAnswer rules.now (list_in pair.now) lacks.now case.old most) }
    ensures same { OnOk result (case.new ≡ case.old) }
{
    let verdict = case_verdict(case);
    let faulty = faulty_in(alloc, rules, pair, lacks, case, most)?;
    Ok(RepairAnswer {
        verdict,
        faulty,
        chain: None,
        of_line: None,
    })
}
