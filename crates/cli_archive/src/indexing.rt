//! `index`: the index of the pages of one run or many, by the lines of the runs.

use crate::archiving::buffered;
use crate::read_lines::{ArchiveLines, NextLine, Taken};
use archive_lines::{LineRead, lead_of};
use cli_files::{Trouble, open_source, shown, write_out};
use game_exits::Exit;
use page_game::{Index, IndexPlayer, IndexRow};
use std::alloc::{AllocError, Global};
use std::io::BufRead;
use std::rt::Runtime;

/// Writes the index of the pages that lines of archives name to the file `out`, with a row for each line. If something is not a line of
/// an archive, or names a page outside the folder of the index, standard error says so, and `out` is not touched.
pub fn index<'a, R: Runtime + AllocGlobal>(
    rt: &R,
    lines: &'a str,
    out: &'a str,
) -> Result<Exit, Trouble<'a>> {
    let reader = buffered(rt.alloc(), open_source(rt, lines)?)?;
    let mut lines = ArchiveLines::new(rt.alloc(), reader, shown(lines));
    let Some(index) = index_of(rt, &mut lines)? else {
        return Ok(Exit::BadInput);
    };
    match index.to_bytes(rt.alloc()) {
        Ok(page) => write_out(rt, out, page.as_slice())?,
        Err(_) => return Err(Trouble::NoMemory),
    }
    Ok(Exit::Fine)
}

/// The index of these lines. If one is not a line of an archive, or if its page is outside the folder of the index, standard error says so, and the
/// answer is `None`.
fn index_of<'a, R: Runtime + AllocGlobal, B: BufRead + Drop>(
    rt: &R,
    lines: &mut ArchiveLines<'a, B>,
) -> Result<Option<Index>, Trouble<'a>> {
    let mut index = Index::new(rt.alloc());
    match take_rows(rt, lines, &mut index) {
        Ok(true) => Ok(Some(index)),
        Ok(false) => Ok(None),
        Err(trouble) => Err(trouble),
    }
}

/// Appends the rows of these lines, and returns whether all are lines of an archive whose pages are in the folder of the index.
fn take_rows<'a, R: Runtime + AllocGlobal, B: BufRead + Drop>(
    rt: &R,
    lines: &mut ArchiveLines<'a, B>,
    index: &mut Index,
) -> Result<bool, Trouble<'a>> {
    for _ in 0..u64::MAX {
        match take_row(rt, lines, index)? {
            Taken::Line => {}
            Taken::End => break,
            Taken::Refused => return Ok(false),
        }
    }
    Ok(true)
}

/// Appends the row of the next line.
fn take_row<'a, R: Runtime + AllocGlobal, B: BufRead + Drop>(
    rt: &R,
    lines: &mut ArchiveLines<'a, B>,
    index: &mut Index,
) -> Result<Taken, Trouble<'a>> {
    match lines.next_line(rt.alloc()) {
        Ok(NextLine::Whole(line)) if line.is_page_outside() => {
            lines.report_outside(rt);
            Ok(Taken::Refused)
        }
        Ok(NextLine::Whole(line)) => match push_row(rt.alloc(), index, &line) {
            Ok(()) => Ok(Taken::Line),
            Err(_) => Err(Trouble::NoMemory),
        },
        Ok(NextLine::End) => Ok(Taken::End),
        Ok(NextLine::NoLine | NextLine::Part) => {
            lines.report_no_line(rt);
            Ok(Taken::Refused)
        }
        Err(trouble) => Err(trouble),
    }
}

/// Appends the row of a line.
fn push_row(alloc: Global, index: &mut Index, line: &LineRead) -> Result<(), AllocError> {
    let row = IndexRow {
        game: line.name.as_str(),
        page: line.page_name(),
        title: None,
        answer: line.verdict,
        line: line.line,
        why: text_of(match &line.ending {
            Some(_) => &line.ending,
            None => &line.fault,
        }),
        first: IndexPlayer {
            name: text_of(&line.player1),
            total: line.total1,
        },
        second: IndexPlayer {
            name: text_of(&line.player2),
            total: line.total2,
        },
        lead: lead_of(line.total1, line.total2),
        unlisted: line.unlisted,
        likely: text_of(&line.likely),
        seems: None,
    };
    index.add(alloc, &row)
}

/// The text, if there is one.
fn text_of(text: &Option<String>) -> Option<&str> {
    text.as_ref().map(|text| text.as_str())
}
