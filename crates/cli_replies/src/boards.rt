//! `board --json` and `board --draft`: the board of a record or of a draft, as an object or in words.

use crate::asked::OfBoard;
use crate::forms::Form;
use crate::kept_files::KeptFile;
use crate::reports::report_beside;
use cli_files::{
    Known, RulesFile, STANDARD_OUTPUT, SheetFile, Source, Trouble, UsedOutput, advise_no_game,
    advise_unread, give_hint, given_up, is_record, open_rules, open_sheet, reported_in_json,
    rules_front, used_rules, used_source,
};
use game_exits::Exit;
use reply_calls::{Ended, answer_by_rules};
use std::rt::Runtime;

/// Says on standard error what helps beside the answer.
fn help<R: Runtime + AllocGlobal>(
    rt: &R,
    game: &str,
    form: Form,
    rules: &RulesFile<R::File>,
    sheet: &SheetFile<Source<R>>,
    ended: &Ended,
) {
    let front = sheet.inner().front();
    if form == Form::Words {
        if let Some(decision) = &ended.refused {
            let known = Known {
                rules: rules_front(rules),
                ..Known::NOTHING
            };
            return give_hint(rt, decision.report.as_slice(), &known);
        }
        if is_record(rt.alloc(), front) {
            advise_no_game(rt, game, front);
        }
    }
    advise_unread(rt, game, front);
}

/// Opens a rules text, if one is named, and a record or a draft, makes the call, and says what helps beside the answer.
fn show_files<'a, R: Runtime + AllocGlobal>(
    rt: &R,
    rules: Option<&'a str>,
    before: Option<u32>,
    game: &'a str,
    draft: bool,
    form: Form,
) -> Result<Exit, Trouble<'a>> {
    let mut stated = open_rules(rt, rules, false)?;
    let mut sheet = open_sheet(rt, game)?;
    let mut kept = KeptFile::new(rt, None);
    let mut report = report_beside(rt, None);
    let asked = OfBoard {
        line: before,
        draft,
    };
    let outcome = answer_by_rules(
        rt.alloc(),
        &asked,
        &mut stated,
        &mut sheet,
        &form,
        &mut kept,
        &mut report,
    );
    match outcome {
        Ok(ended) => {
            help(rt, game, form, &stated, &sheet, &ended);
            Ok(ended.exit)
        }
        Err(fault) => {
            advise_unread(rt, game, sheet.inner().front());
            let inputs = [used_rules(rules, &stated.text), used_source(game, &sheet)];
            let writer = report.into_inner();
            Err(given_up(fault, &inputs, UsedOutput::new(STANDARD_OUTPUT, &writer)))
        }
    }
}

/// Writes the board of a record, or of a draft, before a line if one is named, as a JSON object; if the program cannot finish, the object says why.
pub fn board_in_json<'a, R: Runtime + AllocGlobal>(
    rt: &R,
    rules: Option<&'a str>,
    before: Option<u32>,
    game: &'a str,
    draft: bool,
) -> Result<Exit, Trouble<'a>> {
    reported_in_json(rt, show_files(rt, rules, before, game, draft, Form::Object))
}

/// Writes the board of a draft, before a line if one is named, in words.
pub fn board_of_draft<'a, R: Runtime + AllocGlobal>(
    rt: &R,
    rules: Option<&'a str>,
    before: Option<u32>,
    draft: &'a str,
) -> Result<Exit, Trouble<'a>> {
    show_files(rt, rules, before, draft, true, Form::Words)
}
