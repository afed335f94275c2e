//! Conversions of files into both formats.
use lex_build::{BuildFault, convert};
use lex_file::{Format, LexFile};
use std::alloc::Global;
use test_samples::{
    AT, AT_BY_NODES, AT_IT, AT_IT_BY_NODES, EMPTY, EMPTY_BY_NODES, GAD1, GAD2, file_bytes,
};

/// A file of the word AT that states 7 words. Its third node is the first one again, and no walk reaches it.
const SPARE: [u8; 40] = file_bytes![GAD1, 6, 5, 7, 0x74, 0xc0, 0x74, 0x61, 0x101, 0x254];

/// The same in GAD2.
const SPARE_BY_NODES: [u8; 80] = file_bytes![
    GAD2, 16, 13, 7, 0x80100000, 0x100000, 0, 0x80000001, 0, 1, 0x80100000, 0x100000, 0,
    0x80000002, 2, 0, 0x80100002, 0, 4, 0xa,
];

/// The same nodes in both formats.
const FILES: [(&[u8], &[u8]); 4] = [
    (&EMPTY, &EMPTY_BY_NODES),
    (&AT, &AT_BY_NODES),
    (&AT_IT, &AT_IT_BY_NODES),
    (&SPARE, &SPARE_BY_NODES),
];

/// What becomes of a file: it is converted, or memory ran out on the way.
#[derive(Clone, Copy, Debug, PartialEq, Eq)]
enum Outcome {
    Same,
    Different,
    NoMemory,
}

/// Converts a file into a format, and compares the bytes with those of another.
fn compare(alloc: Global, from: &[u8], format: Format, to: &[u8]) -> Outcome {
    let Ok(file) = LexFile::open(from) else {
        return Outcome::Different;
    };
    match convert(alloc, &file, format) {
        Ok(bytes) if bytes.as_slice() == to => Outcome::Same,
        Err(BuildFault::NoMemory) => Outcome::NoMemory,
        _ => Outcome::Different,
    }
}

#[test]
fn there(rt: HostRuntime) {
    for (by_arcs, by_nodes) in &FILES {
        let outcome = compare(rt.alloc(), by_arcs, Format::Gad2, by_nodes);
        assert_eq!(rt; outcome, Outcome::Same, "{:?}", by_arcs);
    }
}

#[test]
fn back(rt: HostRuntime) {
    for (by_arcs, by_nodes) in &FILES {
        let outcome = compare(rt.alloc(), by_nodes, Format::Gad1, by_arcs);
        assert_eq!(rt; outcome, Outcome::Same, "{:?}", by_nodes);
    }
}

#[test]
fn same_format(rt: HostRuntime) {
    for (by_arcs, by_nodes) in &FILES {
        let outcome = compare(rt.alloc(), by_arcs, Format::Gad1, by_arcs);
        assert_eq!(rt; outcome, Outcome::Same, "{:?}", by_arcs);
        let outcome = compare(rt.alloc(), by_nodes, Format::Gad2, by_nodes);
        assert_eq!(rt; outcome, Outcome::Same, "{:?}", by_nodes);
    }
}

/// A root that is not the last node is still the root: the nodes after it stay, though no walk reaches them.
#[test]
fn root_within(rt: HostRuntime) {
    let mut by_arcs = AT;
    by_arcs[8] = 2;
    let mut by_nodes = AT_BY_NODES;
    by_nodes[8] = 4;
    assert_eq!(rt;
        compare(rt.alloc(), &by_arcs, Format::Gad2, &by_nodes),
        Outcome::Same
    );
    assert_eq!(rt;
        compare(rt.alloc(), &by_nodes, Format::Gad1, &by_arcs),
        Outcome::Same
    );
}

/// Each request for memory that is refused gives that answer: `rt try --test --fail-alloc N` refuses the N-th.
#[test]
fn refused_memory(rt: HostRuntime) {
    let there = compare(rt.alloc(), &AT_IT, Format::Gad2, &AT_IT_BY_NODES);
    assert!(rt; there != Outcome::Different);
    let back = compare(rt.alloc(), &AT_IT_BY_NODES, Format::Gad1, &AT_IT);
    assert!(rt; back != Outcome::Different);
}
