//! `archive`: judges many games by one word list and one lexicon, which are read once, and writes a line for each.
ghost use Rattle.std.specs.Prelude.{[], ⊤};
ghost use Rattle.io_devices.specs.Devices.{HasRoom};
ghost use Rattle.cli_archive.specs.Reporting.{AreGamesReported, games_later};

use crate::names::{Given, Listed, Names};
use crate::pages::Pages;
use crate::runs::{Run, RunBy};
use archive_answers::Asked;
use cli_args::{Archive, ArchiveNames, PROGRAM};
use cli_files::{
    Digests, GivenFiles, Inputs, LexiconFile, Reported, RulesFile, RunInputs, Source, Trouble,
    UsedOutput, Words, digests_of, given_up, open_inputs, open_source, refuse, report_others,
    shown,
};
use engine_stages::{Question, RulesSource, RunFault, ask};
use game_exits::Exit;
use io_devices::{FromRead, Input};
use io_watch::Reason;
use page_answers::Maker;
use std::alloc::{AllocError, Global};
use std::io::{self, BufReader, Read};
use std::rt::Runtime;

/// Judges the games of an archive, each by the settled verdict, and writes a line for each to standard output before it reads the next
/// one. `watched` says whether somebody sees standard error.
pub fn archive<'r, 'a, R: Runtime + AllocGlobal>(
    rt: &'r R,
    request: &'r Archive<'a>,
    watched: bool,
) -> Result<Exit, Trouble<'a>> {
    let inputs = open_inputs(rt, request.rules, request.pair, request.pages.is_some())?;
    match Run::begun(rt, request, watched) {
        Ok(Some(run)) => archive_names(rt, request, inputs, run),
        Ok(None) => Ok(Exit::BadInput),
        Err(trouble) => Err(trouble),
    }
}

/// The same by these inputs, for a run that has begun.
fn archive_names<'r, 'a, R: Runtime + AllocGlobal>(
    rt: &'r R,
    request: &'r Archive<'a>,
    inputs: Inputs<R::File, Source<R>>,
    run: Run,
) -> Result<Exit, Trouble<'a>>
    requires rules { HasRoom (⟦<RulesFile<R::File> as RulesSource>⟧.text inputs.rules) }
    requires words { HasRoom (⟦<FromRead<Words<Source<R>>> as Input>⟧.device inputs.words) }
    requires lexicon { HasRoom (⟦<LexiconFile<R::File> as Input>⟧.device inputs.lexicon) }
{
    match &request.names {
        ArchiveNames::Given(names) => {
            archive_by(rt, request, inputs, run, Given::new(names.as_slice()))
        }
        ArchiveNames::Listed(file) => match listed(rt, *file, request.end) {
            Ok(names) => archive_by(rt, request, inputs, run, names),
            Err(trouble) => Err(trouble),
        },
    }
}

/// The names of a file, each of which this byte ends.
fn listed<'a, R: Runtime + AllocGlobal>(
    rt: &R,
    file: &'a str,
    end: u8,
) -> Result<Listed<BufReader<Source<R>, Global>>, Trouble<'a>> {
    let reader = buffered(rt.alloc(), open_source(rt, file)?)?;
    Ok(Listed::new(reader, end))
}

/// A reader with a buffer.
pub fn buffered<'a, F: Read + Drop>(
    alloc: Global,
    reader: F,
) -> Result<BufReader<F, Global>, Trouble<'a>> {
    match BufReader::new(alloc, reader) {
        Ok(reader) => Ok(reader),
        Err(_) => Err(Trouble::NoMemory),
    }
}

/// The games of an archive. They are judged one after the other.
#[derive(Drop)]
struct Games<N> {
    run: Run,
    names: N,
}

/// The request for the games of an archive, with the runtime to which their lines go.
#[derive(Clone, Copy)]
struct ArchiveQuestion<'r, 'a, R> {
    rt: &'r R,
    request: &'r Archive<'a>,
}

impl<'a, R: Runtime + AllocGlobal, F: Read + Drop, S: Read + Drop, N: Names + Drop> Question<
    RulesFile<F>,
    FromRead<Words<S>>,
    Games<N>,
> for ArchiveQuestion<'_, 'a, R> {
    type Answer = Reported<'a>;

    ghost sources = { λ old new. [] };

    ghost is_ready = { λ games. ⊤ };

    ghost is_answer = { λ question rules words x texts v report. AreGamesReported x texts v report };

    fn answer(
        &self,
        _alloc: Global,
        given: &GivenFiles<'_, F, S>,
        games: &mut Games<N>,
    ) -> Result<Reported<'a>, RunFault> {
        Ok(Ok(go_through(self.rt, self.request, given, games)))
    }

    ghost still = { λ games. tt };

    ghost later = { λ question rules words x texts v report is. games_later x texts v report is };
}

/// Reads the inputs, and judges the games by them if they are good. A bad one ends the run with its line.
fn archive_by<'r, 'a, R: Runtime + AllocGlobal, N: Names + Drop>(
    rt: &'r R,
    request: &'r Archive<'a>,
    inputs: Inputs<R::File, Source<R>>,
    run: Run,
    names: N,
) -> Result<Exit, Trouble<'a>>
    requires rules { HasRoom (⟦<RulesFile<R::File> as RulesSource>⟧.text inputs.rules) }
    requires words { HasRoom (⟦<FromRead<Words<Source<R>>> as Input>⟧.device inputs.words) }
    requires lexicon { HasRoom (⟦<LexiconFile<R::File> as Input>⟧.device inputs.lexicon) }
{
    let mut inputs = inputs;
    let mut games = Games { run, names };
    let question = ArchiveQuestion { rt, request };
    let answer = ask(
        rt.alloc(),
        &question,
        &mut inputs.rules,
        &mut inputs.words,
        &mut inputs.lexicon,
        &mut games,
    );
    report_others(rt, request.pair.words.name, &inputs.words);
    match answer {
        Ok(Ok(reported)) => reported,
        Ok(Err(decision)) => refuse(rt, None, &decision, &inputs.known(request.pair)),
        Err(fault) => {
            let inputs = inputs.used(request.rules, request.pair);
            Err(given_up(fault, &inputs, UsedOutput::NONE))
        }
    }
}

/// What pages are made by, with the digests of the inputs.
fn digested<F: Read + Drop, S: Read + Drop>(
    given: &GivenFiles<'_, F, S>,
) -> Result<Maker, AllocError> {
    let Digests { list, rules } = digests_of(given)?;
    Ok(Maker {
        program: PROGRAM,
        words: given.pair.list().len(),
        list,
        rules,
    })
}

/// What the pages of an archive are made by, if they are requested.
fn maker_of<'a, F: Read + Drop, S: Read + Drop>(
    request: &Archive<'_>,
    given: &GivenFiles<'_, F, S>,
) -> Result<Option<Maker>, Trouble<'a>> {
    if request.pages.is_none() {
        return Ok(None);
    }
    match digested(given) {
        Ok(maker) => Ok(Some(maker)),
        Err(_) => Err(Trouble::NoMemory),
    }
}

/// The pages of an archive, if they are requested.
fn pages_of<'a, R: Runtime + AllocGlobal>(
    rt: &R,
    request: &Archive<'a>,
) -> Result<Option<Pages<'a>>, Trouble<'a>> {
    let Some(folder) = request.pages else {
        return Ok(None);
    };
    let Ok(inputs) = RunInputs::without_games(rt, request) else {
        return Err(Trouble::NoMemory);
    };
    Ok(Some(Pages::open(rt, folder, inputs)?))
}

/// Judges the games of these names, one after the other.
fn go_through<'a, R: Runtime + AllocGlobal, F: Read + Drop, S: Read + Drop, N: Names + Drop>(
    rt: &R,
    request: &Archive<'a>,
    given: &GivenFiles<'_, F, S>,
    games: &mut Games<N>,
) -> Result<Exit, Trouble<'a>> {
    let maker = maker_of(request, given)?;
    let by = RunBy {
        rules: given.rules,
        pair: given.pair,
        asked: Asked {
            likely: request.repairs,
            page: maker.as_ref(),
        },
    };
    match pages_of(rt, request) {
        Ok(pages) => take_all(rt, request, &by, pages, games),
        Err(trouble) => Err(trouble),
    }
}

/// Judges the games of these names, and ends their pages.
fn take_all<'a, R: Runtime + AllocGlobal, N: Names + Drop>(
    rt: &R,
    request: &Archive<'a>,
    by: &RunBy<'_>,
    pages: Option<Pages<'a>>,
    games: &mut Games<N>,
) -> Result<Exit, Trouble<'a>> {
    let mut pages = pages;
    match take_names(rt, request, by, &mut pages, games) {
        Ok(()) => games.run.end(rt, &mut pages),
        Err(trouble) => Err(trouble),
    }
}

/// Judges the games of these names.
fn take_names<'a, R: Runtime + AllocGlobal, N: Names + Drop>(
    rt: &R,
    request: &Archive<'a>,
    by: &RunBy<'_>,
    pages: &mut Option<Pages<'a>>,
    games: &mut Games<N>,
) -> Result<(), Trouble<'a>> {
    let mut name = Vec::new(rt.alloc());
    for _ in 0..u64::MAX {
        name.clear();
        match games.names.next_name(&mut name) {
            Ok(true) => games.run.take_name(rt, by, pages, &name)?,
            Ok(false) => break,
            Err(error) => return Err(names_lost(request, &error)),
        }
    }
    Ok(())
}

/// Why the program could not finish if it could not read the next name.
fn names_lost<'a>(request: &Archive<'a>, error: &io::Error) -> Trouble<'a> {
    if error.kind() == io::ErrorKind::OutOfMemory {
        Trouble::NoMemory
    } else {
        Trouble::ReadFailed(shown(request.names.source()), Reason::of(error))
    }
}
