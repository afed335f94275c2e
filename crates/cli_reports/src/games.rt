//! The commands that are about one game.
ghost use Rattle.std.specs.Prelude.{IfOk};
ghost use Rattle.io_devices.specs.Devices.{HasRoom};

use cli_args::GameFiles;
use cli_files::{
    InputFile, Inputs, Known, LexiconFile, RulesFile, STANDARD_OUTPUT, SheetFile, Source, Trouble,
    UsedOutput, Words, advise_bad_record, advise_no_game, advise_unread, give_hint, open_inputs,
    open_rules, open_sheet, report_others, rules_front, used_rules, used_source, verdict_of,
    watched,
};
use engine::{
    run, run_board, run_board_ruled, run_ruled, run_settled, run_settled_ruled, run_tidy, run_top,
    run_top_before, run_top_before_ruled, run_top_ruled,
};
use engine_stages::{RulesInput, RulesSource, RunFault, Verdict};
use game_report::MOST_PLAYS;
use io_devices::{FromRead, FromWrite, Input, Output};
use io_watch::Front;
use std::alloc::Global;
use std::io::{self, Read};
use std::rt::Runtime;
use std::str;

/// No more plays can be requested than the engine gives.
const _: () = prove!(cli_args::MOST_PLAYS as usize == MOST_PLAYS);

/// How many plays are printed if no number is given.
const USUAL_PLAYS: u32 = 10;

/// The request about a game.
#[derive(Clone, Copy)]
enum GameTask<'a> {
    /// Its verdict.
    Judge,
    /// Its verdict, with a search for a deal if it would be unsettled.
    Settle,
    /// The ten best plays with a rack after the last event.
    TopAtTheEnd(&'a [u8]),
    /// The first of the best plays before a line, up to a number.
    TopBefore {
        rack: Option<&'a [u8]>,
        number: usize,
        line: Option<u32>,
    },
}

impl<'a> GameTask<'a> {
    /// The rack that is named, if one is.
    fn rack(self) -> Option<&'a str> {
        let rack = match self {
            GameTask::Judge | GameTask::Settle => return None,
            GameTask::TopAtTheEnd(rack) => rack,
            GameTask::TopBefore { rack, .. } => rack?,
        };
        str::from_utf8(rack).ok()
    }

    /// Whether a request about a game without events is a mistake. The first plays of a game are those of an empty record.
    fn needs_events(self) -> bool {
        match self {
            GameTask::Judge | GameTask::Settle => true,
            GameTask::TopAtTheEnd(_) | GameTask::TopBefore { .. } => false,
        }
    }
}

/// The inputs of a call about a game.
#[derive(Drop)]
struct GameInputs<F, S> {
    /// What it is judged by.
    given: Inputs<F, S>,
    /// The record.
    game: SheetFile<S>,
}

impl<F: Read + Drop, S: Read + Drop> GameInputs<F, S> {
    /// Has the engine carry out the request. The report goes to `out`.
    fn ask<O: Output>(
        &mut self,
        alloc: Global,
        task: GameTask<'_>,
        out: &mut O,
    ) -> Result<Verdict, RunFault>
        requires rules { HasRoom (⟦<RulesFile<F> as RulesSource>⟧.text self.old.given.rules) }
        requires words { HasRoom (⟦<FromRead<Words<S>> as Input>⟧.device self.old.given.words) }
        requires lexicon { HasRoom (⟦<LexiconFile<F> as Input>⟧.device self.old.given.lexicon) }
        requires game { HasRoom (⟦<SheetFile<S> as Input>⟧.device self.old.game) }
        requires out { HasRoom (O.device out.old) }
    {
        let GameInputs { given, game } = self;
        let Inputs {
            rules,
            words,
            lexicon,
        } = given;
        let RulesInput {
            rules: english,
            text,
        } = rules;
        let Some(text) = text else {
            return match task {
                GameTask::Judge => run(alloc, words, lexicon, game, out, english),
                GameTask::Settle => run_settled(alloc, words, lexicon, game, out, english),
                GameTask::TopAtTheEnd(rack) => {
                    run_top(alloc, words, lexicon, game, rack, out, english)
                }
                GameTask::TopBefore { rack, number, line } => {
                    let most = number.min(MOST_PLAYS);
                    run_top_before(alloc, words, lexicon, game, rack, most, line, out, english)
                }
            };
        };
        match task {
            GameTask::Judge => run_ruled(alloc, text, words, lexicon, game, out),
            GameTask::Settle => run_settled_ruled(alloc, text, words, lexicon, game, out),
            GameTask::TopAtTheEnd(rack) => {
                run_top_ruled(alloc, text, words, lexicon, game, rack, out)
            }
            GameTask::TopBefore { rack, number, line } => {
                let most = number.min(MOST_PLAYS);
                run_top_before_ruled(alloc, text, words, lexicon, game, rack, most, line, out)
            }
        }
    }

    /// These inputs after a call, in the order in which they were read.
    fn used<'a>(&self, files: GameFiles<'a>) -> [InputFile<'a>; 4] {
        let [rules, words, lexicon] = self.given.used(files.rules, files.pair);
        [rules, words, lexicon, used_source(files.game, &self.game)]
    }
}

/// Opens the rules text of a game, if there is one, its word list, its lexicon and its record, in this order.
fn open_game<'a, R: Runtime + AllocGlobal>(
    rt: &R,
    files: GameFiles<'a>,
) -> Result<GameInputs<R::File, Source<R>>, Trouble<'a>>
    ensures rules { IfOk result (λ inputs. HasRoom (⟦<RulesFile<R::File> as RulesSource>⟧.text inputs.given.rules)) }
    ensures words { IfOk result (λ inputs. HasRoom (⟦<FromRead<Words<Source<R>>> as Input>⟧.device inputs.given.words)) }
    ensures lexicon { IfOk result (λ inputs. HasRoom (⟦<LexiconFile<R::File> as Input>⟧.device inputs.given.lexicon)) }
    ensures game { IfOk result (λ inputs. HasRoom (⟦<SheetFile<Source<R>> as Input>⟧.device inputs.game)) }
{
    Ok(GameInputs {
        given: open_inputs(rt, files.rules, files.pair, false)?,
        game: open_sheet(rt, files.game)?,
    })
}

/// Opens the files of a game, and carries out the request. The report goes to standard output, and what may help to standard error.
fn answer_game<'a, R: Runtime + AllocGlobal>(
    rt: &R,
    files: GameFiles<'a>,
    task: GameTask<'_>,
) -> Result<Verdict, Trouble<'a>> {
    let mut inputs = open_game(rt, files)?;
    let mut out = FromWrite::new(watched(rt, io::writer(rt)));
    let outcome = inputs.ask(rt.alloc(), task, &mut out);
    let out = out.into_inner();
    let known = Known {
        rack: task.rack(),
        ..inputs.given.known(files.pair)
    };
    give_hint(rt, out.front().bytes(), &known);
    report_others(rt, files.pair.words.name, &inputs.given.words);
    let verdict = verdict_of(
        outcome,
        &inputs.used(files),
        UsedOutput::new(STANDARD_OUTPUT, &out),
    )?;
    let game = inputs.game.inner().front();
    if task.needs_events() || game.passed() > 0 {
        advise(rt, verdict, files.game, game);
    }
    Ok(verdict)
}

/// Says besides a report what is wrong with a file that is not a game, and which of its lines are not read although they look like events.
fn advise<R: Runtime + AllocGlobal>(rt: &R, verdict: Verdict, name: &str, game: &Front) {
    match verdict {
        Verdict::BadRecord => advise_bad_record(rt, name, game),
        Verdict::Legal { .. } | Verdict::Done | Verdict::BadLine => {
            advise_no_game(rt, name, game);
        }
        _ => {}
    }
    advise_unread(rt, name, game);
}

/// Judges the game of a record, by the English rules or those of a text; on request a search for a deal settles it. The
/// report goes to standard output.
pub fn judge<'a, R: Runtime + AllocGlobal>(
    rt: &R,
    settle: bool,
    files: GameFiles<'a>,
) -> Result<Verdict, Trouble<'a>> {
    let task = if settle {
        GameTask::Settle
    } else {
        GameTask::Judge
    };
    let verdict = answer_game(rt, files, task)?;
    if verdict == Verdict::Unsettled && !settle {
        let _ = rt.eprintln(
            "referee: unsettled: `judge --settle` searches for a deal that yields the racks",
        );
    }
    Ok(verdict)
}

/// Writes the best plays on a board of a record, by the English rules or those of a text, to standard output: on the board before `line`, by `rack`, and
/// at most `number` of them, as far as these are given. The files are opened before the rack is looked at.
pub fn top<'a, R: Runtime + AllocGlobal>(
    rt: &R,
    files: GameFiles<'a>,
    line: Option<u32>,
    rack: Option<&str>,
    number: Option<u32>,
) -> Result<Verdict, Trouble<'a>> {
    let rack = rack.map(|tiles| tiles.as_bytes());
    answer_game(rt, files, top_task(line, rack, number))
}

/// The request for best plays.
fn top_task<'t>(line: Option<u32>, rack: Option<&'t [u8]>, number: Option<u32>) -> GameTask<'t> {
    match (rack, number, line) {
        (Some(rack), None, None) => GameTask::TopAtTheEnd(rack),
        (rack, number, line) => GameTask::TopBefore {
            rack,
            number: number.unwrap_or(USUAL_PLAYS) as usize,
            line,
        },
    }
}

/// Writes the normal form of the record of a file to standard output.
pub fn tidy<'a, R: Runtime + AllocGlobal>(rt: &R, game: &'a str) -> Result<Verdict, Trouble<'a>> {
    let mut record = open_sheet(rt, game)?;
    let mut out = FromWrite::new(watched(rt, io::writer(rt)));
    let outcome = run_tidy(rt.alloc(), &mut record, &mut out);
    let inputs = [used_source(game, &record)];
    let out = UsedOutput::new(STANDARD_OUTPUT, &out.into_inner());
    let verdict = verdict_of(outcome, &inputs, out)?;
    advise(rt, verdict, game, record.inner().front());
    Ok(verdict)
}

/// Says what may help with a fault of a rules text, by its line.
fn hint_rules<R: Runtime, F: Read + Drop>(rt: &R, line: &[u8], rules: &RulesFile<F>) {
    let known = Known {
        rules: rules_front(rules),
        ..Known::NOTHING
    };
    give_hint(rt, line, &known);
}

/// Writes the board of a record to standard output, before a line if one is named, by the English rules or those of a text, which is
/// opened first.
pub fn board<'a, R: Runtime + AllocGlobal>(
    rt: &R,
    rules: Option<&'a str>,
    before: Option<u32>,
    game: &'a str,
) -> Result<Verdict, Trouble<'a>> {
    let mut stated = open_rules(rt, rules, false)?;
    let mut record = open_sheet(rt, game)?;
    let mut out = FromWrite::new(watched(rt, io::writer(rt)));
    let alloc = rt.alloc();
    let outcome = match &mut stated.text {
        None => run_board(alloc, &mut record, before, &mut out, &stated.rules),
        Some(text) => run_board_ruled(alloc, text, &mut record, before, &mut out),
    };
    let inputs = [used_rules(rules, &stated.text), used_source(game, &record)];
    let out = out.into_inner();
    hint_rules(rt, out.front().bytes(), &stated);
    let verdict = verdict_of(outcome, &inputs, UsedOutput::new(STANDARD_OUTPUT, &out))?;
    advise(rt, verdict, game, record.inner().front());
    Ok(verdict)
}
