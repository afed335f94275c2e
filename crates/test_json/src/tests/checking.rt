//! The objects of `check --json`, that an input is bad, and that the program could not finish: their bytes.
use arrayvec::ArrayVec;
use engine_stages::{Decision, InputFault, LexiconFault};
use json_base::{checked_tree, push_refusal, push_trouble};
use json_trees::line_of;
use lex_file::FileFault;
use lex_list::{ListFault, ListWhy};
use std::alloc::{AllocError, Global};
use std::process::Abort;

/// The line of a list of so many words.
fn checked_line(alloc: Global, words: usize) -> Result<Vec<u8>, AllocError> {
    let tree = checked_tree(alloc, words)?;
    line_of(alloc, &tree)
}

/// The line of a bad input.
fn refused_line(alloc: Global, fault: InputFault) -> Result<Vec<u8>, AllocError> {
    let decision = Decision::refused(alloc, fault)?;
    let mut line = Vec::new(alloc);
    push_refusal(alloc, &mut line, &decision)?;
    Ok(line)
}

/// The line of a program that could not finish.
fn trouble_line(
    alloc: Global,
    what: &'static str,
    file: Option<&str>,
) -> Result<Vec<u8>, AllocError> {
    let mut line = Vec::new(alloc);
    push_trouble(alloc, &mut line, what, file)?;
    Ok(line)
}

/// Numbers of words, and the object.
const CHECKED: [(usize, &[u8]); 3] = [
    (
        0,
        b"{\"verdict\":\"ok\",\"line\":null,\"fault\":null,\"words\":0}\n",
    ),
    (
        400_000,
        b"{\"verdict\":\"ok\",\"line\":null,\"fault\":null,\"words\":400000}\n",
    ),
    (
        usize::MAX,
        b"{\"verdict\":\"ok\",\"line\":null,\"fault\":null,\"words\":18446744073709551615}\n",
    ),
];

/// A list of so many words has this line.
fn assert_checked(rt: &impl Abort, alloc: Global, words: usize, expected: &[u8]) {
    let line = checked_line(alloc, words).expect(rt, "memory");
    assert_eq!(rt; line.as_slice(), expected);
}

#[test]
fn lexicons_of_their_lists(rt: HostRuntime) {
    for (words, expected) in &CHECKED {
        assert_checked(&rt, rt.alloc(), *words, expected);
    }
}

/// A bad input has this line.
fn assert_refused(rt: &impl Abort, alloc: Global, fault: InputFault, expected: &[u8]) {
    let line = refused_line(alloc, fault).expect(rt, "memory");
    assert_eq!(rt; line.as_slice(), expected);
}

#[test]
fn bad_lists(rt: HostRuntime) {
    let on_line = ListFault {
        line: 3,
        why: ListWhy::BadLetter,
    };
    assert_refused(
        &rt,
        rt.alloc(),
        InputFault::Words(on_line),
        b"{\"verdict\":\"bad word list\",\"line\":3,\"fault\":{\"name\":\"BadLetter\"}}\n",
    );
    let on_none = ListFault {
        line: 0,
        why: ListWhy::TooLong,
    };
    assert_refused(
        &rt,
        rt.alloc(),
        InputFault::Words(on_none),
        b"{\"verdict\":\"bad word list\",\"line\":null,\"fault\":{\"name\":\"TooLong\"}}\n",
    );
}

/// The path A+T.
fn some_path() -> ArrayVec<u8, 17> {
    let mut path = ArrayVec::new();
    path.push(1);
    path.push(0);
    path.push(20);
    path
}

#[test]
fn bad_lexicons(rt: HostRuntime) {
    assert_refused(
        &rt,
        rt.alloc(),
        InputFault::Lexicon(LexiconFault::Form(FileFault::Magic)),
        b"{\"verdict\":\"bad lexicon\",\"line\":null,\"fault\":{\"name\":\"Magic\"}}\n",
    );
    assert_refused(
        &rt,
        rt.alloc(),
        InputFault::Lexicon(LexiconFault::Missing(some_path())),
        b"{\"verdict\":\"bad lexicon\",\"line\":null,\"fault\":{\"name\":\"Missing\",\"path\":\"A+T\"}}\n",
    );
}

#[test]
fn faults_without_a_name(rt: HostRuntime) {
    assert_refused(
        &rt,
        rt.alloc(),
        InputFault::Rack,
        b"{\"verdict\":\"bad rack\",\"line\":null,\"fault\":null}\n",
    );
}

/// What went wrong and with which file has this line.
fn assert_trouble(
    rt: &impl Abort,
    alloc: Global,
    what: &'static str,
    file: Option<&str>,
    expected: &[u8],
) {
    let line = trouble_line(alloc, what, file).expect(rt, "memory");
    assert_eq!(rt; line.as_slice(), expected);
}

#[test]
fn what_went_wrong(rt: HostRuntime) {
    assert_trouble(
        &rt,
        rt.alloc(),
        "cannot open",
        Some("a \"b\".gcg"),
        b"{\"verdict\":\"cannot open\",\"line\":null,\"fault\":null,\"file\":\"a \\\"b\\\".gcg\"}\n",
    );
    assert_trouble(
        &rt,
        rt.alloc(),
        "no memory",
        None,
        b"{\"verdict\":\"no memory\",\"line\":null,\"fault\":null,\"file\":null}\n",
    );
}

/// Each request for memory is refused in turn, by `rt try --test --fail-alloc N` or `oracle/run refuse_memory`.
#[test]
fn refused_objects(rt: HostRuntime) {
    let (words, expected) = CHECKED[1];
    if let Ok(line) = checked_line(rt.alloc(), words) {
        assert_eq!(rt; line.as_slice(), expected);
    }
    let fault = InputFault::Lexicon(LexiconFault::Extra(some_path()));
    if let Ok(line) = refused_line(rt.alloc(), fault) {
        assert_eq!(rt;
            line.as_slice(),
            b"{\"verdict\":\"bad lexicon\",\"line\":null,\"fault\":{\"name\":\"Extra\",\"path\":\"A+T\"}}\n".as_slice()
        );
    }
}
