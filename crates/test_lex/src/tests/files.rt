//! Files of the first format: what walks find in them, and prefixes of files.
ghost use Rattle.std.specs.Prelude.{◌≡◌};

use lex_file::FileFault::{DeadArc, Length, Short};
use lex_file::{Branch, LexFile, Node, PathLex, Step, law_of_language, law_of_nodes};
use std::process::Abort;
use test_samples::{AT, AT_BY_NODES, AT_IT, EMPTY};

/// Each prefix of a file is refused, by its length.
fn assert_cut(rt: &impl Abort, file: &[u8]) {
    for length in 0..file.len() {
        let fault = if length < 16 { Short } else { Length };
        assert_eq!(rt;
            LexFile::open(&file[..length]).err(),
            Some(fault),
            "{length} bytes"
        );
    }
}

#[test]
fn truncations(rt: HostRuntime) {
    assert_cut(&rt, &AT);
    assert_cut(&rt, &AT_BY_NODES);
}

fn file_of<'a>(rt: &impl Abort, bytes: &'a [u8]) -> LexFile<'a> {
    LexFile::open(bytes).expect(rt, "a file")
}

#[test]
fn counts(rt: HostRuntime) {
    let file = file_of(&rt, &AT_IT);
    assert_eq!(rt; (file.word_count(), file.arc_count()), (2, 7));
    let empty = file_of(&rt, &EMPTY);
    assert_eq!(rt; (empty.word_count(), empty.arc_count()), (0, 0));
}

#[test]
fn names(rt: HostRuntime) {
    assert_eq!(rt; DeadArc.name(), "DeadArc");
    assert_eq!(rt; Short.name(), "Short");
}

/// Whether labels lead from a node to an arc that accepts.
fn accepts<L: PathLex>(lexicon: &L, node: L::Node, labels: &[u8]) -> bool
    requires { L.is_node lexicon.now node }
{
    let [label, rest @ ..] = labels else {
        return false;
    };
    let Some(step) = lexicon.step(node, *label) else {
        return false;
    };
    if rest.is_empty() {
        return step.accepts;
    }
    match step.next {
        Some(next) => accepts(lexicon, next, rest),
        None => false,
    }
}

/// Labels, and whether they are a path of the word AT, and one of the words AT and IT.
const WALKS: [(&[u8], bool, bool); 14] = [
    (&[1, 0, 20], true, true),
    (&[20, 1], true, true),
    (&[9, 0, 20], false, true),
    (&[20, 9], false, true),
    (&[], false, false),
    (&[1], false, false),
    (&[20], false, false),
    (&[1, 0], false, false),
    (&[1, 20], false, false),
    (&[0, 20], false, false),
    (&[20, 1, 0], false, false),
    (&[1, 0, 20, 1], false, false),
    (&[27], false, false),
    (&[255], false, false),
];

/// Whether labels lead from the root of a file to an arc that accepts.
fn is_walk(rt: &impl Abort, bytes: &[u8], labels: &[u8]) -> bool {
    let file = file_of(rt, bytes);
    accepts(&file, file.root(), labels)
}

#[test]
fn walks(rt: HostRuntime) {
    for (labels, at, at_it) in &WALKS {
        assert_eq!(rt; is_walk(&rt, &AT, labels), *at, "{:?}", labels);
        assert_eq!(rt; is_walk(&rt, &AT_IT, labels), *at_it, "{:?}", labels);
        assert!(rt; !is_walk(&rt, &EMPTY, labels));
    }
}

/// Labels from which on the next one is looked for at the root, and the first of the word AT, and of AT and IT.
const AHEAD: [(u8, Option<u8>, Option<u8>); 9] = [
    (0, Some(1), Some(1)),
    (1, Some(1), Some(1)),
    (2, Some(20), Some(9)),
    (9, Some(20), Some(9)),
    (10, Some(20), Some(20)),
    (20, Some(20), Some(20)),
    (21, None, None),
    (27, None, None),
    (255, None, None),
];

/// The first label from one on with which a tail of the root begins.
fn label_from(rt: &impl Abort, bytes: &[u8], from: u8) -> Option<u8> {
    let file = file_of(rt, bytes);
    let branch = file.branch_from(file.root(), from)?;
    Some(branch.label)
}

#[test]
fn labels_ahead(rt: HostRuntime) {
    for (from, at, at_it) in AHEAD {
        assert_eq!(rt; label_from(&rt, &AT, from), at, "{from}");
        assert_eq!(rt; label_from(&rt, &AT_IT, from), at_it, "{from}");
        assert_eq!(rt; label_from(&rt, &EMPTY, from), None, "{from}");
    }
}

/// A step to the last label of a string.
const LAST: Step<Node> = Step {
    accepts: true,
    next: None,
};

#[test]
fn branches(rt: HostRuntime) {
    let file = file_of(&rt, &AT);
    let letter = file.branch_from(file.root(), 2).expect(&rt, "a branch");
    assert_eq!(rt; (letter.label, letter.step.accepts), (20, false));
    let node = letter.step.next.expect(&rt, "a node");
    let last = Branch {
        label: 1,
        step: LAST,
    };
    assert_eq!(rt; file.branch_from(node, 0), Some(last));
    assert_eq!(rt; file.branch_from(node, 2), None);
}

#[test]
fn steps(rt: HostRuntime) {
    let file = file_of(&rt, &AT);
    let root = file.root();
    assert!(rt; file.step(root, 0).is_none());
    let last = file.step(root, 20).expect(&rt, "a step");
    assert!(rt; !last.accepts);
    let node = last.next.expect(&rt, "a node");
    assert_eq!(rt; file.step(node, 1), Some(LAST));
    law_of_language();
    law_of_nodes();
}
