//! The commands that are about a word list and its lexicon: `word`, and `check --json`.

use crate::answering::hint;
use crate::asked::OfNone;
use crate::forms::Form;
use crate::kept_files::KeptFile;
use crate::reports::report_beside;
use crate::sheets::Sheets;
use cli_args::{PROGRAM_NAME, PairFiles};
use cli_files::{
    STANDARD_OUTPUT, Trouble, UsedOutput, given_up, open_inputs, report_others, reported_in_json,
    write,
};
use game_exits::Exit;
use lex_rulings::is_word;
use reply_answers::{Reply, exit_of_reply};
use reply_calls::answer_sheets;
use reply_requests::Request;
use reply_texts::in_words;
use std::rt::Runtime;

/// The first text that is not a word, if there is one.
fn no_word_in<'a>(texts: &[&'a str]) -> Option<&'a str> {
    for text in texts {
        if !is_word(text.as_bytes()) {
            return Some(*text);
        }
    }
    None
}

/// Writes the reply about words of which this text is not one. Nothing is opened for it.
fn refuse_word<'a, R: Runtime + AllocGlobal>(rt: &R, text: &str) -> Result<Exit, Trouble<'a>> {
    let reply = Reply::Ruled(None);
    let Ok(printed) = in_words(rt.alloc(), &reply) else {
        return Err(Trouble::NoMemory);
    };
    write(rt, printed.report.as_slice())?;
    let _ = rt.eprintln(format_args!("{PROGRAM_NAME}: {text:?} is not a word of 2 to 15 letters"));
    Ok(exit_of_reply(&reply))
}

/// Opens a word list and its lexicon, makes the call, and says what helps in addition to the answer.
fn answer_pair<'a, R: Runtime + AllocGlobal>(
    rt: &R,
    pair: PairFiles<'a>,
    request: &Request<'_>,
    form: Form,
) -> Result<Exit, Trouble<'a>> {
    let mut inputs = open_inputs(rt, None, pair, false)?;
    let mut kept = KeptFile::new(rt, None);
    let mut report = report_beside(rt, None);
    let mut sheets: Sheets<R> = Vec::new(rt.alloc());
    let outcome = answer_sheets(
        rt.alloc(),
        &OfNone { request },
        &mut inputs.rules,
        &mut inputs.words,
        &mut inputs.lexicon,
        &mut sheets,
        &form,
        &mut kept,
        &mut report,
    );
    report_others(rt, pair.words.name, &inputs.words);
    match outcome {
        Ok(ended) => {
            if form != Form::Object {
                hint(rt, pair, &inputs, &ended);
            }
            Ok(ended.exit)
        }
        Err(fault) => {
            let writer = report.into_inner();
            let written = UsedOutput::new(STANDARD_OUTPUT, &writer);
            Err(given_up(fault, &inputs.used(None, pair), written))
        }
    }
}

/// Says whether words are acceptable: in one line for all together, or in a line for each. If a text is not a word, nothing is opened.
pub fn rule_on_words<'a, R: Runtime + AllocGlobal>(
    rt: &R,
    pair: PairFiles<'a>,
    words: Vec<&'a str>,
    each: bool,
) -> Result<Exit, Trouble<'a>> {
    if let Some(text) = no_word_in(words.as_slice()) {
        return refuse_word(rt, text);
    }
    let form = if each { Form::EachWord } else { Form::Words };
    answer_pair(rt, pair, &Request::Word { words }, form)
}

/// Writes whether a file is the lexicon of a word list, and how many words this has, as a JSON object; if the program cannot finish, the object says why.
pub fn check_in_json<'a, R: Runtime + AllocGlobal>(
    rt: &R,
    pair: PairFiles<'a>,
) -> Result<Exit, Trouble<'a>> {
    reported_in_json(rt, answer_pair(rt, pair, &Request::Check, Form::Object))
}
