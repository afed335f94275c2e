//! The answers of the checker, and the paths of a list as a lexicon.
use super::samples::AT_ATE;
use Answer::{Agrees, Extra, Missing, WordCount};
use lex_check::{Mismatch, SortedPaths, check, check_paths, law_of_lexicons, pair, text_of};
use lex_file::{LexFile, PathLex};
use lex_list::WordList;
use std::alloc::Global;
use std::process::Abort;
use test_samples::{AT, AT_IT, EMPTY, GAD1, count_walks, file_bytes, file_of};

/// The file of AT with an arc that accepts A too.
const AT_AND_A: [u8; 36] = file_bytes![GAD1, 5, 4, 1, 0x74, 0xc0, 0x61, 0x121, 0x1d4];

/// The file of AT with the number of words 2.
const AT_AS_TWO: [u8; 36] = file_bytes![GAD1, 5, 4, 2, 0x74, 0xc0, 0x61, 0x101, 0x1d4];

/// What a check answers, with a path as reports print it.
enum Answer {
    Agrees,
    Missing(&'static [u8]),
    Extra(&'static [u8]),
    WordCount,
}

/// Word lists and files, and what their checks answer. Where the paths differ, the numbers of words mostly do too: the path is
/// named.
const ROWS: [(&[u8], &[u8], Answer); 11] = [
    (b"AT", &AT, Agrees),
    (b"AT", &AT_AND_A, Extra(b"A")),
    (b"AT", &AT_AS_TWO, WordCount),
    (b"AT\nIT", &AT, Missing(b"I+T")),
    (b"AT", &AT_IT, Extra(b"I")),
    (b"AT\nIT", &AT_IT, Agrees),
    (b"AT", &AT_ATE, Extra(b"A+TE")),
    (b"AT\nATE", &AT, Missing(b"A+TE")),
    (b"", &EMPTY, Agrees),
    (b"AT", &EMPTY, Missing(b"A+T")),
    (b"", &AT, Extra(b"A")),
];

/// The check of a file's bytes; none if a text or a file is refused before it.
fn outcome(alloc: Global, words: &[u8], file: &[u8]) -> Option<Result<(), Mismatch>> {
    let list = WordList::read(alloc, words).ok()?;
    let lexicon = LexFile::open(file).ok()?;
    Some(check(alloc, &list, &lexicon))
}

fn is_answer(outcome: &Option<Result<(), Mismatch>>, answer: &Answer) -> bool {
    match (outcome, answer) {
        (Some(Ok(())), Agrees) => true,
        (Some(Err(Mismatch::Missing(path))), Missing(text)) => text_of(path).as_slice() == *text,
        (Some(Err(Mismatch::Extra(path))), Extra(text)) => text_of(path).as_slice() == *text,
        (Some(Err(Mismatch::WordCount)), WordCount) => true,
        _ => false,
    }
}

fn assert_answer(rt: &impl Abort, alloc: Global, words: &[u8], file: &[u8], answer: &Answer) {
    let here = outcome(alloc, words, file);
    assert!(rt; is_answer(&here, answer), "{:?}", here);
}

#[test]
fn answers(rt: HostRuntime) {
    for (words, file, answer) in &ROWS {
        assert_answer(&rt, rt.alloc(), words, file, answer);
    }
}

/// The file of the least path of a word of 15 letters A, and of this path with one more A after it: 17 labels.
#[test]
fn an_extra_of_seventeen_labels(rt: HostRuntime) {
    let mut words = [0; 21];
    words[..4].copy_from_slice(&[GAD1, 17, 17, 1]);
    for arc in 1..18u32 {
        let label = if arc == 16 { 0 } else { 1 };
        let accepts = if arc <= 2 { 0x20 } else { 0 };
        words[arc as usize + 3] = label + accepts + 0x40 + 128 * (arc - 1);
    }
    let file = file_of(rt.alloc(), &words).expect(&rt, "memory");
    assert_answer(
        &rt,
        rt.alloc(),
        b"AAAAAAAAAAAAAAA",
        &file,
        &Extra(b"A+AAAAAAAAAAAAAAA"),
    );
}

#[test]
fn a_file_of_very_many_walks(rt: HostRuntime) {
    let file = count_walks(rt.alloc()).expect(&rt, "memory");
    assert_answer(&rt, rt.alloc(), b"AT", &file, &Missing(b"A+T"));
}

#[test]
fn a_pair_gives_both_back(rt: HostRuntime) {
    let list = WordList::read(rt.alloc(), b"AT").expect(&rt, "a list");
    let file = LexFile::open(&AT).expect(&rt, "a file");
    let pair = pair(rt.alloc(), &list, file).expect(&rt, "a pair");
    assert_eq!(rt; (pair.list().len(), pair.file().word_count()), (1, 1));
}

#[test]
fn sorted_paths_are_walked(rt: HostRuntime) {
    let paths = paths_of(rt.alloc(), b"AT").expect(&rt, "paths");
    assert_eq!(rt; paths.len(), 2);
    let root = paths.root();
    assert!(rt; paths.step(root, 2).is_none());
    assert!(rt; paths.step(root, 20).is_some());
    assert!(rt; check_paths(&paths, &paths).is_ok());
    law_of_lexicons();
}

/// The sorted paths of the words of a text; none if it is refused.
fn paths_of(alloc: Global, words: &[u8]) -> Option<SortedPaths> {
    let list = WordList::read(alloc, words).ok()?;
    SortedPaths::new(alloc, &list).ok()
}

/// The words of a text, some labels, a label from which on the next one after them is looked for, and the first one.
const AHEAD: [(&[u8], &[u8], u8, Option<u8>); 13] = [
    (b"", &[], 0, None),
    (b"AT\nIT", &[], 0, Some(1)),
    (b"AT\nIT", &[], 1, Some(1)),
    (b"AT\nIT", &[], 2, Some(9)),
    (b"AT\nIT", &[], 10, Some(20)),
    (b"AT\nIT", &[], 20, Some(20)),
    (b"AT\nIT", &[], 21, None),
    (b"AT\nIT", &[], 255, None),
    (b"AT\nIT", &[1], 0, Some(0)),
    (b"AT\nIT", &[1], 1, None),
    (b"AT\nIT", &[20], 2, Some(9)),
    (b"AT\nATE", &[20, 1], 0, Some(0)),
    (b"AT\nATE", &[20, 1], 1, None),
];

/// The first label from one on with which a tail of the node after some labels begins.
fn label_after(paths: &SortedPaths, following: &[u8], from: u8) -> Option<u8> {
    let mut node = paths.root();
    for label in following {
        node = paths.step(node, *label)?.next?;
    }
    let branch = paths.branch_from(node, from)?;
    Some(branch.label)
}

#[test]
fn labels_ahead(rt: HostRuntime) {
    for (words, following, from, label) in &AHEAD {
        let paths = paths_of(rt.alloc(), words).expect(&rt, "paths");
        let here = label_after(&paths, following, *from);
        assert_eq!(rt; here, *label, "{:?} {:?} {}", words, following, from);
    }
}
