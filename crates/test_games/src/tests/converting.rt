//! Lexicon files that are converted into a format, over memory.
use super::lexicons::{checked_bytes, expect};
use super::pieces::reported_of;
use engine_stages::Verdict;
use lex_file::Format;
use std::alloc::Global;
use std::process::Abort;
use test_calls::{Call, Inputs, NO_INPUTS};
use test_samples::{AT, AT_BY_NODES, AT_IT, AT_IT_BY_NODES, EMPTY, EMPTY_BY_NODES};

/// A GAD1 file of two nodes, the root T and a node A that no walk reaches. It states seven words.
const UNREACHED: [u8; 24] = [
    0x47, 0x41, 0x44, 0x31, 0x02, 0x00, 0x00, 0x00, 0x02, 0x00, 0x00, 0x00, 0x07, 0x00, 0x00, 0x00,
    0x61, 0x00, 0x00, 0x00, 0x74, 0x00, 0x00, 0x00,
];

/// The same nodes and number of words in GAD2.
const UNREACHED_BY_NODES: [u8; 40] = [
    0x47, 0x41, 0x44, 0x32, 0x06, 0x00, 0x00, 0x00, 0x04, 0x00, 0x00, 0x00, 0x07, 0x00, 0x00, 0x00,
    0x02, 0x00, 0x00, 0x80, 0x02, 0x00, 0x00, 0x00, 0x00, 0x00, 0x00, 0x00, 0x00, 0x00, 0x10, 0x80,
    0x00, 0x00, 0x10, 0x00, 0x00, 0x00, 0x00, 0x00,
];

/// Converts a file, and gives the verdict and what was written.
fn converted(rt: &impl Abort, alloc: Global, lexicon: &[u8], format: Format) -> (Verdict, Vec<u8>) {
    let inputs = Inputs {
        lexicon,
        ..NO_INPUTS
    };
    reported_of(rt, alloc, Call::Convert(format), &inputs)
}

/// One lexicon in both formats.
struct Both {
    arcs: &'static [u8],
    nodes: &'static [u8],
}

const BOTH: [Both; 4] = [
    Both {
        arcs: &AT,
        nodes: &AT_BY_NODES,
    },
    Both {
        arcs: &AT_IT,
        nodes: &AT_IT_BY_NODES,
    },
    Both {
        arcs: &EMPTY,
        nodes: &EMPTY_BY_NODES,
    },
    Both {
        arcs: &UNREACHED,
        nodes: &UNREACHED_BY_NODES,
    },
];

/// Either file gives the other, and in its own format itself.
#[test]
fn there_and_back(rt: HostRuntime) {
    for row in &BOTH {
        for lexicon in [row.arcs, row.nodes] {
            let reported = converted(&rt, rt.alloc(), lexicon, Format::Gad2);
            expect(&rt, &reported, Verdict::Done, row.nodes);
            let reported = converted(&rt, rt.alloc(), lexicon, Format::Gad1);
            expect(&rt, &reported, Verdict::Done, row.arcs);
        }
    }
}

/// A file with another word at a place.
fn with_word(rt: &impl Abort, alloc: Global, file: &[u8], place: usize, word: [u8; 4]) -> Vec<u8> {
    assert!(rt; place < file.len() / 4);
    let mut bytes = Vec::from_slice(alloc, file).expect(rt, "memory");
    bytes[4 * place..4 * place + 4].copy_from_slice(&word);
    bytes
}

/// No list is needed: a file that is that of no list is converted like any other. Here A alone is accepted too.
#[test]
fn of_no_list(rt: HostRuntime) {
    let arcs = with_word(&rt, rt.alloc(), &AT, 7, [0x21, 0x01, 0x00, 0x00]);
    let nodes = with_word(&rt, rt.alloc(), &AT_BY_NODES, 14, [0x02, 0x00, 0x00, 0x00]);
    let reported = converted(&rt, rt.alloc(), &nodes, Format::Gad1);
    expect(&rt, &reported, Verdict::Done, &arcs);
    for lexicon in [arcs.as_slice(), nodes.as_slice()] {
        let reported = checked_bytes(&rt, rt.alloc(), b"AT", lexicon);
        expect(&rt, &reported, Verdict::BadFile, b"bad lexicon: Extra A\n");
    }
}
