//! The case of a record with what repairs it.
ghost use Rattle.std.specs.Prelude.{◌≡◌, IfOk};
ghost use Rattle.lex_check.specs.Pairs.{list_in};
ghost use Rattle.game_case.specs.Explaining.{HasItsWalk};
ghost use Rattle.reply_answers.specs.Given.{FailsForMemoryAlone, read_of};
ghost use Rattle.reply_answers.specs.Repaired.{repairs_asked, Repairs, IsRepairedCase};

use crate::games::{case_in, unread_in};
use engine_stages::RunFault;
use game_case::Case;
use gcg_drafts::Missing;
use gcg_unread::UnreadLine;
use lex_check::Checked;
use ref_tiles::Rules;
use repair_answers::{RepairAnswer, answer_repairs};
use std::alloc::{AllocError, Global};

/// How many repairs are given if no number is requested.
const USUAL_REPAIRS: usize = 10;

/// The case of a record with what repairs it.
#[derive(Drop)]
pub struct RepairedCase {
    /// The case.
    pub case: Case,
    /// What repairs its record.
    pub answer: RepairAnswer,
    /// Whether the repaired sheet is requested.
    pub asked: bool,
    /// What each event line of a draft lacks; nothing is said of those of a record.
    pub lacks: Vec<Missing>,
    /// The lines of the sheet that are not read although they look like events.
    pub unread: Vec<UnreadLine>,
}

/// How many repairs are requested.
pub(crate) fn repairs_asked(number: Option<u32>) -> usize
    ensures { result ≡ repairs_asked number }
{
    match number {
        None => USUAL_REPAIRS,
        Some(number) => number as usize,
    }
}

/// A case with what repairs its record, in at most `most` lines.
#[tactic(auto, using(crate::proofs::Repairing::repairs))]
fn repaired_of(
    alloc: Global,
    rules: &Rules,
    pair: &Checked<'_>,
    case: Case,
    most: usize,
    asked: bool,
) -> Result<RepairedCase, AllocError>
    requires { HasItsWalk rules.now (list_in pair.now) case }
    ensures { IfOk result (Repairs rules.now (list_in pair.now) case most asked) }
{
    let mut case = case;
    let answer = answer_repairs(alloc, rules, pair, &mut case, most)?;
    let unread = unread_in(alloc, &case)?;
    Ok(RepairedCase {
        case,
        answer,
        asked,
        lacks: Vec::new(alloc),
        unread,
    })
}

/// The case of a record with what repairs it: what `repair` finds; and whether the repaired sheet is asked for.
#[tactic(auto, using(crate::proofs::Repairing::of_text))]
pub fn repaired(
    alloc: Global,
    rules: &Rules,
    pair: &Checked<'_>,
    game: &[u8],
    number: Option<u32>,
    asked: bool,
) -> Result<RepairedCase, RunFault>
    ensures repaired { IfOk result (IsRepairedCase rules.now (list_in pair.now) (read_of game.now) number asked) }
    ensures memory { FailsForMemoryAlone result }
{
    let case = case_in(alloc, rules, pair, game)?;
    Ok(repaired_of(alloc, rules, pair, case, repairs_asked(number), asked)?)
}
