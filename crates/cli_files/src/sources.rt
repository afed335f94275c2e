//! The files of a command line that are read: word lists and records, which may be standard input, and what is known of their bytes.
ghost use Rattle.std.specs.Prelude.{IfOk};
ghost use Rattle.io_devices.specs.Devices.{HasRoom};

use crate::digesting::Digesting;
use crate::files::open;
use crate::troubles::Trouble;
use cli_args::{PROGRAM_NAME, STANDARD_INPUT, WordsFile};
use either::Either;
use io_devices::{FromRead, Input};
use io_watch::WatchedRead;
use lex_words::{FirstFields, Others, WordLines};
use std::alloc::Global;
use std::io::{self, Read};
use std::rt::{Files, Runtime};

/// How many bytes of a word list are kept: its beginning shows what it is.
const WORDS_FRONT: usize = 64;

/// A file, or standard input.
pub type Source<R> = Either<<R as Files>::File, <R as io::Input>::Reader>;

/// Opens the file of this name to be read, or standard input if it is `-`.
pub fn open_source<'a, R: Runtime>(rt: &R, name: &'a str) -> Result<Source<R>, Trouble<'a>> {
    if name == STANDARD_INPUT {
        return Ok(Either::Right(rt.reader()));
    }
    Ok(Either::Left(open(rt, name)?))
}

/// A reader that may digest its bytes, and is watched.
pub type Seen<F> = WatchedRead<Digesting<F>>;

/// The lines of a word list, or their first fields.
pub type ListLines<S> = FirstFields<Seen<S>>;

/// The lines of a word list, or those of them that are words.
pub type Words<S> = WordLines<ListLines<S>>;

/// Opens a word list to be read, whose bytes are digested on request.
pub fn open_words<'a, R: Runtime + AllocGlobal>(
    rt: &R,
    words: WordsFile<'a>,
    digests: bool,
) -> Result<Words<Source<R>>, Trouble<'a>> {
    let source = Digesting::new(open_source(rt, words.name)?, digests);
    let source = WatchedRead::new(rt.alloc(), source, WORDS_FRONT);
    let lines = if words.first_field {
        FirstFields::new(source)
    } else {
        FirstFields::whole_lines(source)
    };
    if words.skip_others {
        Ok(WordLines::new(rt.alloc(), lines))
    } else {
        Ok(WordLines::all_lines(lines))
    }
}

/// A record, all of which is kept.
pub type SheetFile<S> = FromRead<WatchedRead<S>>;

/// A reader of a record, which keeps all of it.
fn sheet_of<S: Read + Drop>(alloc: Global, source: S) -> SheetFile<S>
    ensures { HasRoom (⟦<SheetFile<S> as Input>⟧.device result) }
{
    FromRead::new(WatchedRead::new(alloc, source, gcg_read::MAX_BYTES + 1))
}

/// Opens a record, or standard input if its name is `-`.
pub fn open_sheet<'a, R: Runtime + AllocGlobal>(
    rt: &R,
    name: &'a str,
) -> Result<SheetFile<Source<R>>, Trouble<'a>>
    ensures { IfOk result (λ game. HasRoom (⟦<SheetFile<Source<R>> as Input>⟧.device game)) }
{
    Ok(sheet_of(rt.alloc(), open_source(rt, name)?))
}

/// The watched bytes of a word list.
pub fn seen_words<S: Read + Drop>(words: &FromRead<Words<S>>) -> &Seen<S> {
    words.inner().inner().inner()
}

/// Says which lines of a word list were passed over, if any were.
pub fn report_others<R: Runtime + AllocGlobal, S: Read + Drop>(
    rt: &R,
    name: &str,
    words: &FromRead<Words<S>>,
) {
    let Some(Others { count, line, text }) = words.inner().others() else {
        return;
    };
    if *count == 0 {
        return;
    }
    if let Ok(text) = String::from_utf8_lossy(rt.alloc(), text) {
        let _ = rt.eprintln(format_args!(
            "{PROGRAM_NAME}: {}: lines that are not words, passed over: {count}; the first is line {line}, {text:?}",
            shown(name)
        ));
    }
}

/// The name of a file or of standard input in messages.
pub fn shown(name: &str) -> &str {
    if name == STANDARD_INPUT {
        "standard input"
    } else {
        name
    }
}
