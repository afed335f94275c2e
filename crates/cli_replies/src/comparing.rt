//! `compare`: two players' sheets of one game.

use crate::advice::{advise_draft, advise_first, advise_second};
use crate::answering::{hint, stopped};
use crate::asked::OfBoth;
use crate::forms::Form;
use crate::kept_files::KeptFile;
use crate::reports::{name_beside, report_beside};
use crate::sheets::{Sheets, open_two, used_at};
use cli_args::GameFiles;
use cli_files::{Inputs, Source, Trouble, UsedOutput, advise_unread, open_inputs, report_others};
use game_exits::Exit;
use reply_calls::{Ended, answer_sheets};
use std::rt::Runtime;

/// Says on standard error what helps in addition to the answer on two sheets.
fn help<'a, R: Runtime + AllocGlobal>(
    rt: &R,
    files: GameFiles<'a>,
    second: &str,
    draft: bool,
    form: Form,
    inputs: &Inputs<R::File, Source<R>>,
    sheets: &Sheets<R>,
    ended: &Ended,
) {
    let [first, other] = sheets.as_slice() else {
        return;
    };
    if ended.refused.is_some() {
        if form == Form::Words {
            hint(rt, files.pair, inputs, ended);
        }
    } else if form == Form::Object {
        advise_unread(rt, second, other.inner().front());
        advise_unread(rt, files.game, first.inner().front());
    } else if draft {
        advise_draft(rt, second, other);
        advise_draft(rt, files.game, first);
    } else {
        advise_second(rt, second, first, other);
        advise_first(rt, files.game, first);
    }
}

/// Opens the files of two sheets, makes the call, and says what helps in addition to the answer.
pub(crate) fn compare<'a, R: Runtime + AllocGlobal>(
    rt: &R,
    files: GameFiles<'a>,
    second: &'a str,
    out: Option<&'a str>,
    draft: bool,
    form: Form,
) -> Result<Exit, Trouble<'a>> {
    let mut inputs = open_inputs(rt, files.rules, files.pair, false)?;
    let mut sheets = open_two(rt, files.game, second)?;
    let asked = OfBoth {
        merged: out.is_some(),
        draft,
    };
    let mut kept = KeptFile::new(rt, out);
    let mut report = report_beside(rt, out);
    let outcome = answer_sheets(
        rt.alloc(),
        &asked,
        &mut inputs.rules,
        &mut inputs.words,
        &mut inputs.lexicon,
        &mut sheets,
        &form,
        &mut kept,
        &mut report,
    );
    report_others(rt, files.pair.words.name, &inputs.words);
    match outcome {
        Ok(ended) => {
            help(rt, files, second, draft, form, &inputs, &sheets, &ended);
            Ok(ended.exit)
        }
        Err(fault) => {
            let [rules, words, lexicon] = inputs.used(files.rules, files.pair);
            let one = used_at(files.game, &sheets, 0);
            let other = used_at(second, &sheets, 1);
            let writer = report.into_inner();
            let written = UsedOutput::new(name_beside(out), &writer);
            let used = [rules, words, lexicon, one, other];
            Err(stopped(kept.trouble(), fault, &used, written))
        }
    }
}
