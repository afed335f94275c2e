//! Inputs of a run over many games that one of its pages would be written over.

use crate::overwrites::source;
use cli_args::{Archive, ArchiveNames, STANDARD_INPUT};
use io_files::{FileNumbers, file_numbers};
use page_pieces::push_page_name;
use std::alloc::{AllocError, Global};
use std::collections::BTreeMap;
use std::fs;
use std::io::{BufRead, BufReader, Read};
use std::rt::Runtime;

/// The files that a run reads, and what help calls each.
#[derive(Drop)]
pub struct RunInputs {
    files: BTreeMap<FileNumbers, &'static str>,
}

impl RunInputs {
    /// The files of a run other than its games.
    pub fn without_games<R: Runtime + AllocGlobal>(
        rt: &R,
        run: &Archive<'_>,
    ) -> Result<RunInputs, AllocError> {
        let mut inputs = RunInputs {
            files: BTreeMap::new(rt.alloc()),
        };
        inputs.add(rt, "the FILE of --rules", run.rules.unwrap_or(""))?;
        inputs.add(rt, "WORDS", source(run.pair.words.name))?;
        inputs.add(rt, "LEXICON", run.pair.lexicon)?;
        inputs.add(rt, "the FILE of --names", source(run.names.source()))?;
        inputs.add(rt, "the LINES of --skip", source(run.skip.unwrap_or("")))?;
        Ok(inputs)
    }

    /// Adds the file of this name, if there is one, unless it is there already.
    fn add<R: Runtime>(
        &mut self,
        rt: &R,
        shown: &'static str,
        name: &str,
    ) -> Result<(), AllocError> {
        let Some(file) = file_numbers(rt, name) else {
            return Ok(());
        };
        if self.files.contains_key(&file) {
            return Ok(());
        }
        match self.files.insert(file, shown) {
            Ok(_) => Ok(()),
            Err(_) => Err(AllocError),
        }
    }

    /// What help calls the file of this name, if it is one of them.
    pub fn shown<R: Runtime>(&self, rt: &R, name: &str) -> Option<&'static str> {
        let file = file_numbers(rt, name)?;
        self.files.get(&file).copied()
    }
}

/// What help calls the first input of a run that one of its pages, or their index, would be written over; none if there is no such input, or if no
/// pages are made. Names that come from a device or a pipe are not known before the run.
pub fn input_under_pages<R: Runtime + AllocGlobal>(
    rt: &R,
    run: &Archive<'_>,
) -> Result<Option<&'static str>, AllocError> {
    let Some(folder) = run.pages else {
        return Ok(None);
    };
    if fs::metadata(rt, folder).is_err() {
        return Ok(None);
    }
    let games = games_of(rt, run)?;
    let mut inputs = RunInputs::without_games(rt, run)?;
    let are_given = matches!(run.names, ArchiveNames::Given(_));
    for game in games.iter() {
        let name = game.as_str();
        inputs.add(rt, "GAME", if are_given { source(name) } else { name })?;
    }
    first_under(rt, &inputs, folder, games.as_slice())
}

/// What help calls the first of these inputs that is the index or the page of a game in a folder.
fn first_under<R: Runtime + AllocGlobal>(
    rt: &R,
    inputs: &RunInputs,
    folder: &str,
    games: &[String],
) -> Result<Option<&'static str>, AllocError> {
    let index = path_in(rt.alloc(), folder, b"index.html")?;
    if let Some(shown) = inputs.shown(rt, index.as_str()) {
        return Ok(Some(shown));
    }
    for game in games {
        let page = page_of(rt.alloc(), folder, game.as_str())?;
        if let Some(shown) = inputs.shown(rt, page.as_str()) {
            return Ok(Some(shown));
        }
    }
    Ok(None)
}

/// The names of the games of a run, as far as they are known before it.
fn games_of<R: Runtime + AllocGlobal>(
    rt: &R,
    run: &Archive<'_>,
) -> Result<Vec<String>, AllocError> {
    match &run.names {
        ArchiveNames::Given(names) => given_games(rt.alloc(), names.as_slice()),
        ArchiveNames::Listed(file) => listed_games(rt, *file, run.end),
    }
}

/// The games on the command line. One of them may be standard input.
fn given_games(alloc: Global, names: &[&str]) -> Result<Vec<String>, AllocError> {
    let mut games = Vec::new(alloc);
    for name in names {
        games.push(String::from_str(alloc, *name)?)?;
    }
    Ok(games)
}

/// The games in a file of names, each of which ends with the byte `end`. There are none if the names do not come from a file.
fn listed_games<R: Runtime + AllocGlobal>(
    rt: &R,
    file: &str,
    end: u8,
) -> Result<Vec<String>, AllocError> {
    if file == STANDARD_INPUT || file_numbers(rt, file).is_none() {
        return Ok(Vec::new(rt.alloc()));
    }
    match fs::open(rt, file) {
        Ok(file) => read_games(rt.alloc(), file, end),
        Err(_) => Ok(Vec::new(rt.alloc())),
    }
}

/// The games that a reader names, up to the first name that it cannot give.
fn read_games<F: Read + Drop>(alloc: Global, file: F, end: u8) -> Result<Vec<String>, AllocError> {
    let Ok(reader) = BufReader::new(alloc, file) else {
        return Err(AllocError);
    };
    let mut reader = reader;
    let mut games = Vec::new(alloc);
    let mut name = Vec::new(alloc);
    for _ in 0..u64::MAX {
        name.clear();
        match reader.read_until(end, &mut name) {
            Ok(0) | Err(_) => break,
            Ok(_) => push_game(alloc, &mut games, &name, end)?,
        }
    }
    Ok(games)
}

/// Appends a game by its name, from which the byte `end` is cut. A name that is not UTF-8 is not the name of a file.
fn push_game(
    alloc: Global,
    games: &mut Vec<String>,
    name: &[u8],
    end: u8,
) -> Result<(), AllocError> {
    let name = match name {
        [name @ .., last] if *last == end => name,
        _ => name,
    };
    if !name.is_empty() {
        games.push(String::from_utf8_lossy(alloc, name)?)?;
    }
    Ok(())
}

/// The page of a game in a folder.
fn page_of(alloc: Global, folder: &str, game: &str) -> Result<String, AllocError> {
    let mut page = Vec::new(alloc);
    push_page_name(&mut page, game.as_bytes())?;
    path_in(alloc, folder, page.as_slice())
}

/// The path of a file in a folder.
fn path_in(alloc: Global, folder: &str, file: &[u8]) -> Result<String, AllocError> {
    let mut path = Vec::from_slice(alloc, folder.as_bytes())?;
    path.push(b'/')?;
    path.extend_from_slice(file)?;
    String::from_utf8_lossy(alloc, path.as_slice())
}
