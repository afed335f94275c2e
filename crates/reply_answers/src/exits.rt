//! How the program ends after a reply.
ghost use Rattle.std.specs.Prelude.{◌≡◌};
ghost use Rattle.game_exits.specs.Exits.{exit_of, status_of};
ghost use Rattle.game_exits.specs.Audits.{audit_status};
ghost use Rattle.reply_answers.specs.Exits.{exit_of_agreement, status_of_refused, status_of_board, status_of_plays, status_of_ruled, status_of_compared, status_of_filled, status_by_stop, status_of_next, status_of_reply};

use crate::compared::SheetsFound;
use crate::replies::Reply;
use crate::words::Ruled;
use compare_answers::Agreement;
use draft_answers::{DraftFault, DraftNext, FilledDraft};
use engine_stages::{Decision, Verdict};
use game_answers::{FoundPlays, JudgedGame, ShownBoard};
use game_exits::{Exit, exit_of_audit, exit_of_case};
use game_walk::Refusal;
use sheet_audit::AuditAnswer;

/// How it ends after a judged game.
fn exit_of_judged(found: &Result<JudgedGame, Decision>) -> Exit
    ensures { status_of result ≡ status_of_refused (λ game. status_of (exit_of game.verdict)) found.now }
{
    match found {
        Ok(game) => Exit::from(game.verdict),
        Err(decision) => Exit::from(decision.verdict),
    }
}

/// How it ends after an audit.
fn exit_of_audited(found: &Result<AuditAnswer, Decision>) -> Exit
    ensures { status_of result ≡ status_of_refused (λ answer. audit_status answer.audit.wrong.items answer.audit.entry.finding) found.now }
{
    match found {
        Ok(answer) => exit_of_audit(&answer.audit),
        Err(decision) => Exit::from(decision.verdict),
    }
}

/// How it ends after a board, or if there is none.
fn exit_of_board(found: &Result<Option<ShownBoard>, Decision>) -> Exit
    ensures { status_of result ≡ status_of_refused status_of_board found.now }
{
    match found {
        Ok(Some(_)) => Exit::Fine,
        Ok(None) => Exit::from(Verdict::BadLine),
        Err(decision) => Exit::from(decision.verdict),
    }
}

/// How it ends after best plays.
fn exit_of_plays(found: &Result<FoundPlays, Decision>) -> Exit
    ensures { status_of result ≡ status_of_refused status_of_plays found.now }
{
    match found {
        Ok(plays) => Exit::from(plays.verdict()),
        Err(decision) => Exit::from(decision.verdict),
    }
}

/// How it ends after the ruling on words.
fn exit_of_ruled(ruled: &Option<Ruled>) -> Exit
    ensures { status_of result ≡ status_of_ruled ruled.now }
{
    match ruled {
        None => Exit::BadInput,
        Some(ruled) if ruled.ruling.acceptable => Exit::Fine,
        Some(_) => Exit::Illegal,
    }
}

/// How it ends after two sheets are compared that have something to compare: 0 if they agree, 1 if they do not, and 2 if no choice of their lines is known
/// to make a game but one may.
fn exit_of_agreement(agreement: Agreement) -> Exit
    ensures { result ≡ exit_of_agreement agreement }
{
    match agreement {
        Agreement::Agree => Exit::Fine,
        Agreement::Differ => Exit::Illegal,
        Agreement::Unsettled => Exit::Unsettled,
    }
}

/// How it ends after two sheets are compared.
fn exit_of_compared(found: &SheetsFound) -> Exit
    ensures { status_of result ≡ status_of_compared found.now }
{
    match found {
        SheetsFound::Both(both) => exit_of_agreement(both.answer.agreement),
        SheetsFound::FirstBad(_) | SheetsFound::SecondBad(_) => Exit::BadInput,
    }
}

/// How it ends after a draft that is filled: as after an audit.
fn exit_of_filled(found: &Result<FilledDraft, DraftFault>) -> Exit
    ensures { status_of result ≡ status_of_filled found.now }
{
    match found {
        Ok(draft) => exit_of_audit(&draft.answer.audit),
        Err(_) => Exit::BadInput,
    }
}

/// How it ends after what the next line of a draft is about, by the line that the rules refuse, if there is one.
fn exit_by_stop(stopped: &Option<Refusal>) -> Exit
    ensures { status_of result ≡ status_by_stop stopped.now }
{
    match stopped {
        None => Exit::Fine,
        Some(_) => Exit::Illegal,
    }
}

/// How it ends after what the next line of a draft is about.
fn exit_of_next(found: &Result<DraftNext, DraftFault>) -> Exit
    ensures { status_of result ≡ status_of_next found.now }
{
    match found {
        Ok(draft) => exit_by_stop(&draft.stopped),
        Err(_) => Exit::BadInput,
    }
}

/// How the program ends after a reply: by what was found, and by nothing else.
pub fn exit_of_reply(reply: &Reply) -> Exit
    ensures { status_of result ≡ status_of_reply reply.now }
{
    match reply {
        Reply::Judged(sheet) => exit_of_judged(&sheet.found),
        Reply::Explained(explained) => exit_of_case(&explained.case, explained.line),
        Reply::Audited(sheet) => exit_of_audited(&sheet.found),
        Reply::Boarded(sheet) => exit_of_board(&sheet.found),
        Reply::Found(found) => exit_of_plays(found),
        Reply::Ruled(ruled) => exit_of_ruled(ruled),
        Reply::Checked(_) => Exit::Fine,
        Reply::Tidied(decision) => Exit::from(decision.verdict),
        Reply::Paged(paged) => exit_of_case(&paged.case, None),
        Reply::Compared(found) => exit_of_compared(found),
        Reply::Repaired(repaired) => exit_of_case(&repaired.case, None),
        Reply::Annotated(sheet) => exit_of_case(&sheet.case, None),
        Reply::Filled(sheet) => exit_of_filled(&sheet.found),
        Reply::Next(found) => exit_of_next(found),
        Reply::NoDraft(_) => Exit::BadInput,
    }
}
