//! The commands that keep the lexicon of a word list.

use cli_args::{PairFiles, WordsFile};
use cli_files::{
    Known, STANDARD_OUTPUT, Trouble, UsedOutput, end_out, give_hint, known_words, open_lexicon,
    open_out, open_words, repeat_fault, report_others, shown, shown_out, used, used_words,
    verdict_of, watched,
};
use engine::{run_build, run_check, run_convert};
use engine_stages::{RunFault, Verdict};
use io_devices::{FromRead, FromWrite};
use lex_file::Format;
use std::io;
use std::rt::Runtime;

/// Whether this verdict is the result of a call.
fn came_to(outcome: &Result<Verdict, RunFault>, verdict: Verdict) -> bool {
    match outcome {
        Ok(found) => *found == verdict,
        Err(_) => false,
    }
}

/// Writes the lexicon of a word list, or the line of the list's fault, to the output `out`. Standard error gets that line too.
pub fn build<'a, R: Runtime + AllocGlobal>(
    rt: &R,
    words: WordsFile<'a>,
    out: &'a str,
) -> Result<Verdict, Trouble<'a>> {
    let mut list = FromRead::new(open_words(rt, words, false)?);
    let mut file = FromWrite::new(watched(rt, open_out(rt, out)?));
    let outcome = run_build(rt.alloc(), &mut list, &mut file);
    let is_bad = came_to(&outcome, Verdict::BadList);
    let file = file.into_inner();
    report_others(rt, words.name, &list);
    let inputs = [used_words(words.name, &list)];
    let verdict = verdict_of(outcome, &inputs, UsedOutput::new(shown_out(out), &file));
    if is_bad {
        let known = known_words(words, &list);
        repeat_fault(rt, shown(words.name), file.front().bytes(), &known);
    }
    end_out(rt, out, file.into_inner(), verdict)
}

/// Compares a lexicon with a word list. What was found goes to standard output.
pub fn check<'a, R: Runtime + AllocGlobal>(
    rt: &R,
    pair: PairFiles<'a>,
) -> Result<Verdict, Trouble<'a>> {
    let PairFiles { words, lexicon } = pair;
    let mut list = FromRead::new(open_words(rt, words, false)?);
    let mut file = open_lexicon(rt, lexicon)?;
    let mut out = FromWrite::new(watched(rt, io::writer(rt)));
    let outcome = run_check(rt.alloc(), &mut list, &mut file, &mut out);
    let inputs = [used_words(words.name, &list), used(lexicon, &file)];
    let out = out.into_inner();
    let known = Known {
        lexicon,
        ..known_words(words, &list)
    };
    give_hint(rt, out.front().bytes(), &known);
    report_others(rt, words.name, &list);
    verdict_of(outcome, &inputs, UsedOutput::new(STANDARD_OUTPUT, &out))
}

/// Writes a lexicon in a format, or the line of the lexicon's fault, to the output `out`. Standard error gets that line too.
pub fn convert<'a, R: Runtime + AllocGlobal>(
    rt: &R,
    format: Format,
    lexicon: &'a str,
    out: &'a str,
) -> Result<Verdict, Trouble<'a>> {
    let mut file = open_lexicon(rt, lexicon)?;
    let mut converted = FromWrite::new(watched(rt, open_out(rt, out)?));
    let outcome = run_convert(rt.alloc(), &mut file, format, &mut converted);
    let is_bad = came_to(&outcome, Verdict::BadFile);
    let converted = converted.into_inner();
    let inputs = [used(lexicon, &file)];
    let verdict = verdict_of(
        outcome,
        &inputs,
        UsedOutput::new(shown_out(out), &converted),
    );
    if is_bad {
        repeat_fault(rt, lexicon, converted.front().bytes(), &Known::NOTHING);
    }
    end_out(rt, out, converted.into_inner(), verdict)
}
