//! Which files are seen at once to be that of a list, and which need the walk along the paths in order.
use super::samples::{AT_AND_MORE, AT_ATE, AT_ATE_APART, LISTS};
use lex_agree::agree;
use lex_build::{build, convert};
use lex_check::check;
use lex_file::{Format, LexFile};
use lex_list::WordList;
use std::alloc::Global;
use std::process::Abort;
use test_samples::{AT, AT_BY_NODES, AT_IT, EMPTY};

/// Word lists and files, whether it is seen at once that the file is that of the list, and whether it is.
const ROWS: [(&[u8], &[u8], bool, bool); 10] = [
    (b"", &EMPTY, true, true),
    (b"AT", &AT, true, true),
    (b"AT", &AT_BY_NODES, true, true),
    (b"AT\nIT", &AT_IT, true, true),
    (b"AT\nATE", &AT_ATE, true, true),
    // The same strings, with two nodes of the letter E.
    (b"AT\nATE", &AT_ATE_APART, false, true),
    // One word too few, and one too many.
    (b"AT\nATE", &AT, false, false),
    (b"AT", &AT_ATE, false, false),
    (b"AT\nIT", &EMPTY, false, false),
    // The paths of AT, and one more string.
    (b"AT", &AT_AND_MORE, false, false),
];

/// Whether it is seen at once that a file is that of a list, and whether it is; none if there is no list or no file.
fn answers(alloc: Global, words: &[u8], bytes: &[u8]) -> Option<(bool, bool)> {
    let list = WordList::read(alloc, words).ok()?;
    let file = LexFile::open(bytes).ok()?;
    Some((
        agree(alloc, &list, &file),
        check(alloc, &list, &file).is_ok(),
    ))
}

/// The same for the file that is built from a list, in a format.
fn built(alloc: Global, words: &[u8], format: Format) -> Option<(bool, bool)> {
    let list = WordList::read(alloc, words).ok()?;
    let bytes = build(alloc, &list).ok()?;
    let file = LexFile::open(bytes.as_slice()).ok()?;
    let other = convert(alloc, &file, format).ok()?;
    answers(alloc, words, other.as_slice())
}

#[test]
fn worked_rows(rt: HostRuntime) {
    for (words, file, reported, right) in &ROWS {
        let here = answers(rt.alloc(), words, file);
        assert_eq!(rt; here, Some((*reported, *right)), "{:?} {:?}", words, file);
    }
}

/// Files are seen at once in both formats.
#[test]
fn built_files_are_reported_at_once(rt: HostRuntime) {
    for words in &LISTS {
        for format in [Format::Gad1, Format::Gad2] {
            assert_eq!(rt;
                built(rt.alloc(), words, format),
                Some((true, true)),
                "{:?}",
                words
            );
        }
    }
}
