//! The pages of an archive: one for each game, and their index.

use archive_answers::{ArchivedGame, GameRow, GameSheet, RowPlayer, row_of};
use archive_lines::PageField;
use cli_files::{RunInputs, Trouble, unopened, write_whole_file};
use io_files::is_same_file;
use page_answers::PagedCase;
use page_game::{Index, IndexPlayer, IndexRow};
use page_pieces::push_page_name;
use page_words::page_text;
use std::alloc::{AllocError, Global};
use std::path::Path;
use std::rt::Runtime;
use std::{fs, io};

/// The file of the index in the folder.
const INDEX: &str = "index.html";

/// The pages of a run over many games: their folder, and their index so far.
#[derive(Drop)]
pub struct Pages<'a> {
    folder: &'a str,
    /// What the run reads besides its games: no page is written over it.
    inputs: RunInputs,
    /// The index up to the last game that is done.
    index: Index,
}

impl<'a> Pages<'a> {
    /// The pages of a folder. Makes the folder if it is not there.
    pub fn open<R: Runtime + AllocGlobal>(
        rt: &R,
        folder: &'a str,
        inputs: RunInputs,
    ) -> Result<Pages<'a>, Trouble<'a>> {
        match fs::create_dir_all(rt, folder) {
            Ok(()) => {}
            Err(error) => return Err(unopened(folder, &error)),
        }
        Ok(Pages {
            folder,
            inputs,
            index: Index::new(rt.alloc()),
        })
    }

    /// Writes the page of a game, if it has one, and has its line say whether that was done.
    pub fn write<R: Runtime + AllocGlobal>(&mut self, rt: &R, game: &mut ArchivedGame<'_>) {
        let GameSheet::Paged(paged) = &game.sheet else {
            return;
        };
        let page = match self.write_page(rt, game.fields.name, paged) {
            Ok(page) => page,
            Err(_) => PageField::NoMemory,
        };
        game.report_page(page);
    }

    /// Writes the page of a game of this name.
    fn write_page<R: Runtime + AllocGlobal>(
        &self,
        rt: &R,
        name: &str,
        paged: &PagedCase,
    ) -> Result<PageField, AllocError> {
        let alloc = rt.alloc();
        let file = page_of(alloc, name)?;
        let page = page_text(alloc, paged, Some(folders_of(file.as_str())))?;
        let path = path_in(alloc, self.folder, file.as_str())?;
        if self.is_input(rt, name, path.as_str()) {
            return Ok(PageField::CannotWrite);
        }
        if put_page(rt, path.as_str(), page.as_slice())? {
            Ok(PageField::Written(file))
        } else {
            Ok(PageField::CannotWrite)
        }
    }

    /// Whether the file of a path is the game of this name, or another input of the run.
    fn is_input<R: Runtime>(&self, rt: &R, name: &str, path: &str) -> bool {
        is_same_file(rt, name, path) || self.inputs.shown(rt, path).is_some()
    }

    /// Adds the row of a game to the index. If there is no memory for it, the line of the game says so.
    pub fn add(&mut self, alloc: Global, game: &mut ArchivedGame<'_>) {
        if self.add_row(alloc, game).is_err() {
            game.report_page(PageField::NoMemory);
        }
    }

    /// Adds the row of a game to the index.
    fn add_row(&mut self, alloc: Global, game: &ArchivedGame<'_>) -> Result<(), AllocError> {
        self.index.add(alloc, &index_row(&row_of(game)))
    }

    /// Writes the index.
    pub fn end<R: Runtime + AllocGlobal>(&mut self, rt: &R) -> Result<(), Trouble<'a>> {
        let (Ok(index), Ok(path)) = (
            self.index.to_bytes(rt.alloc()),
            path_in(rt.alloc(), self.folder, INDEX),
        ) else {
            return Err(Trouble::NoMemory);
        };
        match write_whole_file(rt, path.as_str(), index.as_slice()) {
            Ok(()) => Ok(()),
            Err(Trouble::CannotOpen(_, reason) | Trouble::WriteFailed(_, reason)) => {
                Err(Trouble::WriteFailed(self.folder, reason))
            }
            Err(_) => Err(Trouble::NoMemory),
        }
    }
}

/// What is said about the answer of a row: whether the game has ended, or the fault.
fn why_of<'g>(row: &GameRow<'g>) -> Option<&'g str> {
    match row.ending {
        Some(ending) => Some(ending.name()),
        None => row.fault,
    }
}

/// A player as the index writes it.
fn index_player<'g>(player: &RowPlayer<'g>) -> IndexPlayer<'g> {
    IndexPlayer {
        name: player.name,
        total: player.total,
    }
}

/// A row as the index writes it.
fn index_row<'g>(row: &GameRow<'g>) -> IndexRow<'g> {
    IndexRow {
        game: row.game,
        page: row.page,
        title: row.title,
        answer: row.answer,
        line: row.line,
        why: why_of(row),
        first: index_player(&row.first),
        second: index_player(&row.second),
        lead: row.lead,
        unlisted: row.unlisted,
        likely: row.likely,
        seems: row.seems.map(|kind| kind.sentence()),
    }
}

/// The page of a game: its path in the folder of the pages.
fn page_of(alloc: Global, name: &str) -> Result<String, AllocError> {
    let mut page = Vec::new(alloc);
    push_page_name(&mut page, name.as_bytes())?;
    String::from_utf8_lossy(alloc, page.as_slice())
}

/// How many folders below that of the index a page is.
fn folders_of(page: &str) -> usize {
    page.as_bytes().iter().filter(|byte| **byte == b'/').count()
}

/// The path of a file in a folder.
fn path_in(alloc: Global, folder: &str, file: &str) -> Result<String, AllocError> {
    let mut path = String::from_str(alloc, folder)?;
    path.push('/')?;
    path.push_str(file)?;
    Ok(path)
}

/// Writes a page to the file of a path, makes the folders of the path that are not there, and returns whether it was done.
fn put_page<R: Runtime + AllocGlobal>(
    rt: &R,
    path: &str,
    bytes: &[u8],
) -> Result<bool, AllocError> {
    if let Some(folder) = Path::new(path).parent() {
        match fs::create_dir_all(rt, folder.as_str()) {
            Ok(()) => {}
            Err(error) if error.kind() == io::ErrorKind::OutOfMemory => return Err(AllocError),
            Err(_) => return Ok(false),
        }
    }
    match write_whole_file(rt, path, bytes) {
        Ok(()) => Ok(true),
        Err(Trouble::NoMemory) => Err(AllocError),
        Err(_) => Ok(false),
    }
}
