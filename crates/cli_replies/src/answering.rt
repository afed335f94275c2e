//! The commands about one game.

use crate::advice::advise;
use crate::asked::OfOne;
use crate::comparing::compare;
use crate::forms::Form;
use crate::kept_files::KeptFile;
use crate::reports::{name_beside, report_beside};
use crate::sheets::{open_one, used_at};
use crate::tops::{is_rack, refuse_rack};
use cli_args::{Asked, GameFiles, GameRequest, PairFiles};
use cli_files::{
    InputFile, Inputs, SheetFile, Source, Trouble, UsedOutput, advise_unread, give_hint, given_up,
    open_inputs, report_others, reported_in_json,
};
use engine_stages::RunFault;
use game_exits::Exit;
use reply_calls::{Ended, answer_sheets};
use reply_requests::Task;
use std::rt::Runtime;

/// Says on standard error what may help with a bad input.
pub(crate) fn hint<'a, R: Runtime + AllocGlobal>(
    rt: &R,
    pair: PairFiles<'a>,
    inputs: &Inputs<R::File, Source<R>>,
    ended: &Ended,
) {
    if let Some(decision) = &ended.refused {
        give_hint(rt, decision.report.as_slice(), &inputs.known(pair));
    }
}

/// Says on standard error what helps in addition to the answer on a sheet.
fn help<'a, R: Runtime + AllocGlobal>(
    rt: &R,
    files: GameFiles<'a>,
    task: Task<'_>,
    form: Form,
    inputs: &Inputs<R::File, Source<R>>,
    sheet: &SheetFile<Source<R>>,
    ended: &Ended,
) {
    if form == Form::Object {
        advise_unread(rt, files.game, sheet.inner().front());
    } else if ended.refused.is_none() {
        advise(rt, files.game, task, ended.exit, sheet);
    } else {
        hint(rt, files.pair, inputs, ended);
    }
}

/// Why a call ended early: the text could not be kept, or else an input could not be read or the report could not be written.
pub(crate) fn stopped<'a>(
    kept: Option<Trouble<'a>>,
    fault: RunFault,
    inputs: &[InputFile<'a>],
    written: UsedOutput<'a>,
) -> Trouble<'a> {
    match kept {
        Some(trouble) => trouble,
        None => given_up(fault, inputs, written),
    }
}

/// Opens the files of a sheet, makes the call, and says what helps in addition to the answer.
fn answer_one<'a, R: Runtime + AllocGlobal>(
    rt: &R,
    files: GameFiles<'a>,
    task: Task<'_>,
    out: Option<&'a str>,
    form: Form,
) -> Result<Exit, Trouble<'a>> {
    let digests = matches!(task, Task::Page { .. });
    let mut inputs = open_inputs(rt, files.rules, files.pair, digests)?;
    let mut sheets = open_one(rt, files.game)?;
    let mut kept = KeptFile::new(rt, out);
    let mut report = report_beside(rt, out);
    let outcome = answer_sheets(
        rt.alloc(),
        &OfOne { task },
        &mut inputs.rules,
        &mut inputs.words,
        &mut inputs.lexicon,
        &mut sheets,
        &form,
        &mut kept,
        &mut report,
    );
    report_others(rt, files.pair.words.name, &inputs.words);
    match outcome {
        Ok(ended) => {
            if let Some(sheet) = sheets.first() {
                help(rt, files, task, form, &inputs, sheet, &ended);
            }
            Ok(ended.exit)
        }
        Err(fault) => {
            let [rules, words, lexicon] = inputs.used(files.rules, files.pair);
            let sheet = used_at(files.game, &sheets, 0);
            let writer = report.into_inner();
            let written = UsedOutput::new(name_beside(out), &writer);
            Err(stopped(
                kept.trouble(),
                fault,
                &[rules, words, lexicon, sheet],
                written,
            ))
        }
    }
}

/// Whether the rack that a request names is not one.
fn names_no_rack(asked: Asked<'_>) -> bool {
    match asked {
        Asked::OfOne(Task::Top { rack, .. }) => !is_rack(rack),
        _ => false,
    }
}

/// Answers a request about a game, in a form.
fn answer_in<'a, R: Runtime + AllocGlobal>(
    rt: &R,
    files: GameFiles<'a>,
    request: GameRequest<'a>,
    form: Form,
) -> Result<Exit, Trouble<'a>> {
    let GameRequest { asked, out } = request;
    if names_no_rack(asked) {
        return refuse_rack(rt, files);
    }
    match asked {
        Asked::OfOne(task) => answer_one(rt, files, task, out, form),
        Asked::WithAnother { second, draft } => compare(rt, files, second, out, draft, form),
    }
}

/// Answers a request about a game: in words, or with a JSON object. If the program cannot finish, an object says why.
pub fn answer_game<'a, R: Runtime + AllocGlobal>(
    rt: &R,
    files: GameFiles<'a>,
    request: GameRequest<'a>,
    json: bool,
) -> Result<Exit, Trouble<'a>> {
    if json {
        reported_in_json(rt, answer_in(rt, files, request, Form::Object))
    } else {
        answer_in(rt, files, request, Form::Words)
    }
}
