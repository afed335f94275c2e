//! The reply to a request.
ghost use Rattle.std.specs.Prelude.{◌≡◌, IfOk};
ghost use Rattle.lex_check.specs.Pairs.{list_in};
ghost use Rattle.game_known.specs.Known.{AreKnown};
ghost use Rattle.reply_answers.specs.Given.{FailsForMemoryAlone};
ghost use Rattle.reply_requests.specs.declared.requests.Request.TheVariants as request;
ghost use Rattle.reply_answers.specs.Replies.{IsExplainReply, IsBoardReply, IsRepairReply, IsReplyTo, IsReplyByRules};

use crate::annotated::annotated;
use crate::audited::{AuditedSheet, audited_sheet};
use crate::compared::{SheetsFound, compared};
use crate::drafted::{FilledSheet, filled_sheet};
use crate::explained::ExplainedCase;
use crate::judges::Judges;
use crate::on_drafts::{explained_as, repaired_as, shown_as};
use crate::paged::paged;
use crate::plays::plays_in;
use crate::read_sheets::{JudgedSheet, ShownSheet, judged_sheet};
use crate::repaired::RepairedCase;
use crate::tidying::tidied;
use crate::words::{Ruled, rule_on_texts};
use draft_answers::{DraftFault, DraftNext, next_line};
use engine_stages::{Decision, RunFault};
use game_answers::FoundPlays;
use game_known::KnownBests;
use lex_check::Checked;
use page_answers::PagedCase;
use ref_tiles::Rules;
use reply_requests::Request;
use sheet_notes::AnnotatedSheet;
use std::alloc::Global;

/// The answer to a request. A decision says that the record, or the rack, is not one.
#[derive(Drop)]
pub enum Reply {
    /// To one that asks to judge a game: the judged game.
    Judged(JudgedSheet),
    /// To one that asks for an explanation: the case with what explains it.
    Explained(ExplainedCase),
    /// To one that asks to audit a sheet: the audit.
    Audited(AuditedSheet),
    /// To one that asks for a board: the board, if there is an event on the line or after it.
    Boarded(ShownSheet),
    /// To one that asks for best plays: these.
    Found(Result<FoundPlays, Decision>),
    /// To one that names words: the ruling on them, if each is a word.
    Ruled(Option<Ruled>),
    /// To one that asks how many words the list has: how many.
    Checked(usize),
    /// To one that asks for the normal form of a record: that it is done, with the normal form.
    Tidied(Decision),
    /// To one that asks for a page: the case with what its page shows.
    Paged(PagedCase),
    /// To one that asks to compare two sheets: what is found of them.
    Compared(SheetsFound),
    /// To one that asks for repairs: the case with what repairs its record.
    Repaired(RepairedCase),
    /// To one that asks for notes: the case with what is noted of it.
    Annotated(AnnotatedSheet),
    /// To one that asks to fill a draft: what is found of it, with the record that it makes.
    Filled(FilledSheet),
    /// To one that asks what the next line of a draft is about: that, or the first fault of the draft.
    Next(Result<DraftNext, DraftFault>),
    /// To one whose text is to be a draft: that it is none, with its first fault.
    NoDraft(DraftFault),
}

/// The reply to a request to explain a game, or a draft, if the text is to be one.
#[tactic(auto, using(crate::proofs::OnDrafts::explain_reported, crate::proofs::OnDrafts::no_draft_reported))]
fn explain_reply(
    alloc: Global,
    rules: &Rules,
    pair: &Checked<'_>,
    game: &[u8],
    line: Option<u32>,
    likely: bool,
    lead: bool,
    draft: bool,
) -> Result<Reply, RunFault>
    ensures reply { IfOk result (IsExplainReply draft rules.now (list_in pair.now) game.now line likely lead) }
    ensures memory { FailsForMemoryAlone result }
{
    match explained_as(alloc, rules, pair, game, line, likely, lead, draft)? {
        Ok(explained) => Ok(Reply::Explained(explained)),
        Err(fault) => Ok(Reply::NoDraft(fault)),
    }
}

/// The reply to a request for what repairs a game, or a draft, if the text is to be one.
#[tactic(auto, using(crate::proofs::OnDrafts::repair_reported, crate::proofs::OnDrafts::no_repair_reported))]
fn repair_reply(
    alloc: Global,
    rules: &Rules,
    pair: &Checked<'_>,
    game: &[u8],
    number: Option<u32>,
    asked: bool,
    draft: bool,
) -> Result<Reply, RunFault>
    ensures reply { IfOk result (IsRepairReply draft rules.now (list_in pair.now) game.now number asked) }
    ensures memory { FailsForMemoryAlone result }
{
    match repaired_as(alloc, rules, pair, game, number, asked, draft)? {
        Ok(repaired) => Ok(Reply::Repaired(repaired)),
        Err(fault) => Ok(Reply::NoDraft(fault)),
    }
}

/// The reply to a request for the board of a game, or of a draft, if the text is to be one.
#[tactic(auto, using(crate::proofs::OnDrafts::board_reported, crate::proofs::OnDrafts::no_board_reported))]
fn shown_reply(
    alloc: Global,
    rules: &Rules,
    game: &[u8],
    line: Option<u32>,
    draft: bool,
) -> Result<Reply, RunFault>
    ensures reply { IfOk result (IsBoardReply draft rules.now line game.now) }
    ensures memory { FailsForMemoryAlone result }
{
    match shown_as(alloc, rules, game, line, draft)? {
        Ok(sheet) => Ok(Reply::Boarded(sheet)),
        Err(fault) => Ok(Reply::NoDraft(fault)),
    }
}

/// The reply to a request for the board of a game or of a draft, before a line if one is named. It depends only on the rules and on the request.
///
/// # Errors
///
/// `NoMemory` if memory was refused.
#[tactic(auto, using(crate::proofs::Boarding::by_rules))]
pub fn board_reply(
    alloc: Global,
    rules: &Rules,
    game: &[u8],
    line: Option<u32>,
    draft: bool,
) -> Result<Reply, RunFault>
    ensures reply { IfOk result (IsReplyByRules rules.now (request.Board game.entry line draft)) }
    ensures memory { FailsForMemoryAlone result }
{
    shown_reply(alloc, rules, game, line, draft)
}

/// The reply to a request, by rules, the words of a pair and a maker. It depends only on these. Best plays that are proved for their board and their rack are
/// kept from one request to the next, so that they need not be looked for again; the reply does not depend on them.
///
/// There is a reply unless memory is refused. A record of more than 1 MiB counts up to one byte past that, as it is read from a file.
///
/// # Errors
///
/// `NoMemory` if memory was refused.
pub fn reply_to(
    alloc: Global,
    judges: &Judges<'_>,
    request: &Request<'_>,
    known: &mut KnownBests,
) -> Result<Reply, RunFault>
    requires { AreKnown judges.now.rules.now (list_in judges.now.pair.now) known.old }
    ensures known { AreKnown judges.now.rules.now (list_in judges.now.pair.now) known.new }
    ensures reply { IfOk result (IsReplyTo judges.now.maker.now judges.now.rules.now (list_in judges.now.pair.now) request.now) }
    ensures memory { FailsForMemoryAlone result }
{
    let Judges { rules, pair, .. } = *judges;
    match request {
        Request::Judge { game, settle, best } => Ok(Reply::Judged(judged_sheet(
            alloc, rules, pair, game, *settle, *best, known,
        )?)),
        Request::Explain {
            game,
            line,
            likely,
            lead,
            draft,
        } => explain_reply(alloc, rules, pair, game, *line, *likely, *lead, *draft),
        Request::Audit { game, corrected } => {
            Ok(Reply::Audited(audited_sheet(alloc, rules, pair, game, *corrected)?))
        }
        Request::Board { game, line, draft } => shown_reply(alloc, rules, game, *line, *draft),
        Request::Top {
            game,
            line,
            rack,
            number,
        } => Ok(Reply::Found(plays_in(alloc, rules, pair, game, *line, *rack, *number)?)),
        Request::Word { words } => Ok(Reply::Ruled(rule_on_texts(
            alloc,
            pair.list(),
            words.as_slice(),
        )?)),
        Request::Check => Ok(Reply::Checked(pair.list().len())),
        Request::Tidy { game } => Ok(Reply::Tidied(tidied(alloc, game)?)),
        Request::Page { game, likely } => Ok(Reply::Paged(paged(alloc, judges, game, *likely)?)),
        Request::Repair {
            game,
            number,
            repaired,
            draft,
        } => repair_reply(alloc, rules, pair, game, *number, *repaired, *draft),
        Request::Compare {
            first,
            second,
            merged,
            draft,
        } => Ok(Reply::Compared(compared(alloc, rules, pair, first, second, *merged, *draft)?)),
        Request::Annotate { game, number } => {
            Ok(Reply::Annotated(annotated(alloc, rules, pair, game, *number)?))
        }
        Request::Fill { draft, filled } => {
            Ok(Reply::Filled(filled_sheet(alloc, rules, pair, draft, *filled)?))
        }
        Request::Next { draft } => Ok(Reply::Next(next_line(alloc, rules, pair, draft)?)),
    }
}
