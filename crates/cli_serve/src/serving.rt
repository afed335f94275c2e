//! `serve`: answers requests by rules, a word list and a lexicon that are read once.
ghost use Rattle.std.specs.Prelude.{[], ⊤};
ghost use Rattle.lex_check.specs.Pairs.{list_in};
ghost use Rattle.game_known.specs.Known.{AreKnown};
ghost use Rattle.cli_serve.specs.Reporting.{AreServed, served_later};

use crate::lines::{Lines, NextLine};
use crate::reporting::{NO_MEMORY_LINE, make_line, make_refusal, ready_line};
use cli_args::{PROGRAM, PairFiles, SHORT_VERSION, STANDARD_INPUT};
use cli_files::{
    Digests, GivenFiles, Reported, RulesFile, Trouble, UsedOutput, Words, digests_of, given_up,
    open_inputs, refuse_in_json, report_others, reported_in_json, shown, write,
};
use engine_stages::{Question, RunFault, ask};
use game_exits::Exit;
use game_known::KnownBests;
use io_devices::FromRead;
use io_watch::Reason;
use page_answers::Maker;
use reply_answers::Judges;
use reply_requests::Refusal;
use std::alloc::{AllocError, Global};
use std::io::{BufRead, BufReader, Input, Read};
use std::rt::Runtime;

/// How many best plays are kept from one request to the next: those of a hundred games, in a few megabytes.
const KNOWN_PLACES: usize = 4096;

/// The requests of standard input, with the runtime to which their answers go.
#[derive(Clone, Copy)]
struct ServeQuestion<'r, R> {
    rt: &'r R,
}

impl<R: Runtime + AllocGlobal, F: Read + Drop, S: Read + Drop, B: BufRead + Drop> Question<
    RulesFile<F>,
    FromRead<Words<S>>,
    Lines<B>,
> for ServeQuestion<'_, R> {
    type Answer = Reported<'static>;

    ghost sources = { λ old new. [] };

    ghost is_ready = { λ lines. ⊤ };

    ghost is_answer = { λ question rules words x texts v report. AreServed x texts v report };

    fn answer(
        &self,
        _alloc: Global,
        given: &GivenFiles<'_, F, S>,
        lines: &mut Lines<B>,
    ) -> Result<Reported<'static>, RunFault> {
        Ok(Ok(serve_given(self.rt, given, lines)))
    }

    ghost still = { λ lines. tt };

    ghost later = { λ question rules words x texts v report is. served_later x texts v report is };
}

/// What pages are made by, with the digests of the inputs.
fn maker_of<F: Read + Drop, S: Read + Drop>(
    given: &GivenFiles<'_, F, S>,
) -> Result<Maker, AllocError> {
    let Digests { list, rules } = digests_of(given)?;
    Ok(Maker {
        program: PROGRAM,
        words: given.pair.list().len(),
        list,
        rules,
    })
}

/// Writes that requests can be asked, and answers the lines by these inputs.
fn serve_given<R: Runtime + AllocGlobal, F: Read + Drop, S: Read + Drop, B: BufRead + Drop>(
    rt: &R,
    given: &GivenFiles<'_, F, S>,
    lines: &mut Lines<B>,
) -> Result<Exit, Trouble<'static>> {
    let (Ok(maker), Ok(ready)) = (
        maker_of(given),
        ready_line(rt.alloc(), given.pair.list().len(), SHORT_VERSION),
    ) else {
        return Err(Trouble::NoMemory);
    };
    let Ok(mut known) = KnownBests::new(rt.alloc(), KNOWN_PLACES) else {
        return Err(Trouble::NoMemory);
    };
    let judges = Judges {
        rules: given.rules,
        pair: given.pair,
        maker: &maker,
    };
    write(rt, ready.as_slice())?;
    answer_lines(rt, &judges, lines, &mut known)
}

/// Makes the line of the answer to what was read next.
fn make_next(
    alloc: Global,
    out: &mut Vec<u8>,
    judges: &Judges<'_>,
    next: NextLine,
    line: &[u8],
    known: &mut KnownBests,
) -> Result<(), AllocError>
    requires { AreKnown judges.now.rules.now (list_in judges.now.pair.now) known.old }
    ensures { AreKnown judges.now.rules.now (list_in judges.now.pair.now) known.new }
{
    match next {
        NextLine::Line => make_line(alloc, out, judges, line, known),
        NextLine::TooLong => make_refusal(alloc, out, Refusal::TooLong),
        NextLine::NoMemory | NextLine::End => Err(AllocError),
    }
}

/// Answers one line after the other. Each answer is written before the next line is read.
fn answer_lines<R: Runtime + AllocGlobal, B: BufRead + Drop>(
    rt: &R,
    judges: &Judges<'_>,
    lines: &mut Lines<B>,
    known: &mut KnownBests,
) -> Result<Exit, Trouble<'static>>
    requires { AreKnown judges.now.rules.now (list_in judges.now.pair.now) known.old }
{
    let mut out = Vec::new(rt.alloc());
    for _ in 0..u64::MAX {
        let next = match lines.next_line() {
            Ok(NextLine::End) => break,
            Ok(next) => next,
            Err(error) => {
                return Err(Trouble::ReadFailed(shown(STANDARD_INPUT), Reason::of(&error)));
            }
        };
        match make_next(rt.alloc(), &mut out, judges, next, lines.line(), known) {
            Ok(()) => write(rt, out.as_slice())?,
            Err(AllocError) => write(rt, NO_MEMORY_LINE)?,
        }
    }
    Ok(Exit::Fine)
}

/// Opens standard input for requests.
fn open_lines<'a, R: Runtime + AllocGlobal>(
    rt: &R,
) -> Result<Lines<BufReader<<R as Input>::Reader, Global>>, Trouble<'a>> {
    match BufReader::new(rt.alloc(), rt.reader()) {
        Ok(reader) => Ok(Lines::new(rt.alloc(), reader)),
        Err(_) => Err(Trouble::NoMemory),
    }
}

/// Reads a rules text if one is named, a word list and its lexicon, and then answers the requests of standard input, one a line, until it ends.
/// If one of the inputs is bad or cannot be read, a JSON object says so, and nothing is answered.
pub fn serve<'a, R: Runtime + AllocGlobal>(
    rt: &R,
    rules: Option<&'a str>,
    pair: PairFiles<'a>,
) -> Result<Exit, Trouble<'a>> {
    let mut inputs = match open_inputs(rt, rules, pair, true) {
        Ok(inputs) => inputs,
        Err(trouble) => return reported_in_json(rt, Err(trouble)),
    };
    let mut lines = match open_lines(rt) {
        Ok(lines) => lines,
        Err(trouble) => return reported_in_json(rt, Err(trouble)),
    };
    let question = ServeQuestion { rt };
    let answer = ask(
        rt.alloc(),
        &question,
        &mut inputs.rules,
        &mut inputs.words,
        &mut inputs.lexicon,
        &mut lines,
    );
    report_others(rt, pair.words.name, &inputs.words);
    match answer {
        Ok(Ok(reported)) => reported,
        Ok(Err(decision)) => reported_in_json(rt, refuse_in_json(rt, &decision)),
        Err(fault) => {
            let used = inputs.used(rules, pair);
            reported_in_json(rt, Err(given_up(fault, &used, UsedOutput::NONE)))
        }
    }
}
