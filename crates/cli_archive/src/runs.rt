//! A run over the games of an archive.

use crate::done::Done;
use crate::pages::Pages;
use crate::progress::Progress;
use archive_answers::{ArchivedGame, Asked, RunLines, report_game, unread_game};
use archive_lines::Unread;
use cli_args::{Archive, ArchiveNames, Progressing};
use cli_files::{Source, Trouble, is_folder, open, open_source, write};
use either::Either;
use engine_stages::RunFault;
use game_exits::Exit;
use io_devices::FromRead;
use lex_check::Checked;
use ref_tiles::Rules;
use std::io::Read;
use std::rt::{Files, Runtime};
use std::str;

/// What the games of a run are judged by, and what is asked of each.
#[derive(Clone, Copy)]
pub struct RunBy<'a> {
    /// The rules.
    pub rules: &'a Rules,
    /// The words and their lexicon.
    pub pair: &'a Checked<'a>,
    /// What is asked.
    pub asked: Asked<'a>,
}

/// The state of a run over the games of an archive.
#[derive(Drop)]
pub struct Run {
    /// The games that have a line already, and are passed over.
    done: Done,
    /// Whether the names of the games are in a list, and not on the command line.
    is_listed: bool,
    progress: Progress,
    /// The line of the game that was judged last, and how the program ends by the lines that are written.
    lines: RunLines,
}

impl Run {
    /// A run of which no game was judged yet; `watched` says whether somebody sees standard error. There is none if the file of lines whose games are passed
    /// over has something else.
    pub fn begun<'a, R: Runtime + AllocGlobal>(
        rt: &R,
        request: &Archive<'a>,
        watched: bool,
    ) -> Result<Option<Run>, Trouble<'a>> {
        match Done::read(rt, request.skip) {
            Ok(Some(done)) => Ok(Some(Run {
                done,
                is_listed: matches!(&request.names, ArchiveNames::Listed(_)),
                progress: Progress::new(is_shown(request.progress, watched)),
                lines: RunLines::new(rt.alloc(), request.json),
            })),
            Ok(None) => Ok(None),
            Err(trouble) => Err(trouble),
        }
    }

    /// Judges the game of a name, unless it has a line already.
    pub fn take_name<'a, R: Runtime + AllocGlobal>(
        &mut self,
        rt: &R,
        by: &RunBy<'_>,
        pages: &mut Option<Pages<'_>>,
        name: &[u8],
    ) -> Result<(), Trouble<'a>> {
        if self.done.has(rt.alloc(), name)? {
            return Ok(());
        }
        match str::from_utf8(name) {
            Ok(name) => self.take_game(rt, by, pages, name),
            Err(_) => self.take_no_file(rt, by, pages, name),
        }
    }

    /// Says that a name that is not UTF-8 text is not the name of a file.
    fn take_no_file<'a, R: Runtime + AllocGlobal>(
        &mut self,
        rt: &R,
        by: &RunBy<'_>,
        pages: &mut Option<Pages<'_>>,
        name: &[u8],
    ) -> Result<(), Trouble<'a>> {
        match String::from_utf8_lossy(rt.alloc(), name) {
            Ok(shown) => self.take_unread(rt, by, pages, shown.as_str(), Unread::CannotOpen),
            Err(_) => Err(Trouble::NoMemory),
        }
    }

    /// Opens the game of this name, and judges it.
    fn take_game<'a, R: Runtime + AllocGlobal>(
        &mut self,
        rt: &R,
        by: &RunBy<'_>,
        pages: &mut Option<Pages<'_>>,
        name: &str,
    ) -> Result<(), Trouble<'a>> {
        match self.open_game(rt, name) {
            Ok(game) => self.take_open(rt, by, pages, name, game),
            Err(Trouble::NoMemory) => self.take_unread(rt, by, pages, name, Unread::NoMemory),
            Err(_) => self.take_unread(rt, by, pages, name, Unread::CannotOpen),
        }
    }

    /// Judges the open game of this name.
    fn take_open<'a, R: Runtime + AllocGlobal>(
        &mut self,
        rt: &R,
        by: &RunBy<'_>,
        pages: &mut Option<Pages<'_>>,
        name: &str,
        game: Source<R>,
    ) -> Result<(), Trouble<'a>> {
        let mut game = FromRead::new(game);
        match report_game(rt.alloc(), by.rules, by.pair, &by.asked, name, &mut game) {
            Ok(reported) => self.report(rt, by, pages, reported),
            Err(fault) => self.take_unread(rt, by, pages, name, unread_by(rt, name, fault)),
        }
    }

    /// Says why the game of this name could not be read.
    fn take_unread<'a, R: Runtime + AllocGlobal>(
        &mut self,
        rt: &R,
        by: &RunBy<'_>,
        pages: &mut Option<Pages<'_>>,
        name: &str,
        why: Unread,
    ) -> Result<(), Trouble<'a>> {
        self.report(rt, by, pages, unread_game(&by.asked, name, why))
    }

    /// Opens a game. A list of names has only files; the command line may name standard input too.
    fn open_game<'n, R: Runtime>(&self, rt: &R, name: &'n str) -> Result<Source<R>, Trouble<'n>> {
        if self.is_listed {
            Ok(Either::Left(open(rt, name)?))
        } else {
            open_source(rt, name)
        }
    }

    /// Writes the page of a game and adds its row to the index if pages are made, and writes its line.
    fn report<'a, R: Runtime + AllocGlobal>(
        &mut self,
        rt: &R,
        by: &RunBy<'_>,
        pages: &mut Option<Pages<'_>>,
        game: ArchivedGame<'_>,
    ) -> Result<(), Trouble<'a>> {
        let mut game = game;
        show_page(rt, pages, &mut game);
        self.write_line(rt, by, &game)
    }

    /// Writes the line of a game, and counts the game.
    fn write_line<'a, R: Runtime + AllocGlobal>(
        &mut self,
        rt: &R,
        by: &RunBy<'_>,
        game: &ArchivedGame<'_>,
    ) -> Result<(), Trouble<'a>> {
        if self.lines.add(rt.alloc(), &by.asked, game).is_err() {
            return Err(Trouble::NoMemory);
        }
        write(rt, self.lines.line.as_slice())?;
        self.progress.count(rt);
        Ok(())
    }

    /// Says that all games are done, writes the index of their pages if pages are made, and returns how the program ends.
    pub fn end<'a, R: Runtime + AllocGlobal>(
        &self,
        rt: &R,
        pages: &mut Option<Pages<'a>>,
    ) -> Result<Exit, Trouble<'a>> {
        self.progress.end(rt);
        if let Some(pages) = pages {
            pages.end(rt)?;
        }
        Ok(self.lines.worst)
    }
}

/// Whether to show how many games are done: as the command line says, or else if somebody sees it.
fn is_shown(progress: Progressing, watched: bool) -> bool {
    match progress {
        Progressing::Shown => true,
        Progressing::Quiet => false,
        Progressing::Unsaid => watched,
    }
}

/// Writes the page of a game and adds its row to the index, if pages are made.
fn show_page<R: Runtime + AllocGlobal>(
    rt: &R,
    pages: &mut Option<Pages<'_>>,
    game: &mut ArchivedGame<'_>,
) {
    if let Some(pages) = pages {
        pages.write(rt, game);
        pages.add(rt.alloc(), game);
    }
}

/// Why the game of this name is unread, if reading it failed.
fn unread_by<R: Files>(rt: &R, name: &str, fault: RunFault) -> Unread {
    match fault {
        RunFault::NoMemory => Unread::NoMemory,
        RunFault::ReadFailed | RunFault::WriteFailed => {
            if is_folder(rt, name) {
                Unread::IsFolder
            } else {
                Unread::ReadFailed
            }
        }
    }
}
