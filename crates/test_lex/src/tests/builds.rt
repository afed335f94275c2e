//! The files that are built from lists.
use super::samples::{AT_ATE, LISTS};
use lex_build::{BuildFault, build};
use lex_check::{Mismatch, check};
use lex_file::LexFile;
use lex_list::{ListWhy, WordList};
use std::alloc::Global;
use std::process::Abort;
use test_samples::{AT, AT_IT, EMPTY};

/// The file of the word AA, whose paths are A+A and AA: the node of A has a mark that goes on and an A that ends.
const AA: [u8; 32] = [
    0x47, 0x41, 0x44, 0x31, 0x04, 0x00, 0x00, 0x00, 0x04, 0x00, 0x00, 0x00, 0x01, 0x00, 0x00, 0x00,
    0x61, 0x00, 0x00, 0x00, 0x80, 0x00, 0x00, 0x00, 0x61, 0x00, 0x00, 0x00, 0x41, 0x01, 0x00, 0x00,
];

/// Word lists and the bytes of their files.
const FILES: [(&[u8], &[u8]); 9] = [
    (b"", &EMPTY),
    (b"\n\n", &EMPTY),
    (b"AT", &AT),
    (b"at\nAT\n", &AT),
    (b"AT\nIT", &AT_IT),
    (b"it\nAT\nAt\n", &AT_IT),
    (b"IT\r\nAT\r\n", &AT_IT),
    (b"AA", &AA),
    (b"AT\nATE", &AT_ATE),
];

/// What becomes of a list: it is built and checked, or memory ran out on the way.
#[derive(Clone, Copy, Debug, PartialEq, Eq)]
enum Outcome {
    Same,
    Different,
    NoMemory,
}

/// Builds a list that is read from a text, and compares the bytes with those of a file.
fn compare(alloc: Global, text: &[u8], file: &[u8]) -> Outcome {
    let list = match WordList::read(alloc, text) {
        Ok(list) => list,
        Err(fault) if fault.why == ListWhy::NoMemory => return Outcome::NoMemory,
        Err(_) => return Outcome::Different,
    };
    match build(alloc, &list) {
        Ok(bytes) if bytes.as_slice() == file => Outcome::Same,
        Err(BuildFault::NoMemory) => Outcome::NoMemory,
        _ => Outcome::Different,
    }
}

/// Builds a list that is read from a text, and checks the file against the list.
fn rebuild(alloc: Global, text: &[u8]) -> Outcome {
    let list = match WordList::read(alloc, text) {
        Ok(list) => list,
        Err(fault) if fault.why == ListWhy::NoMemory => return Outcome::NoMemory,
        Err(_) => return Outcome::Different,
    };
    let bytes = match build(alloc, &list) {
        Ok(bytes) => bytes,
        Err(BuildFault::NoMemory) => return Outcome::NoMemory,
        Err(BuildFault::TooManyArcs) => return Outcome::Different,
    };
    let Ok(file) = LexFile::open(&bytes) else {
        return Outcome::Different;
    };
    match check(alloc, &list, &file) {
        Ok(()) => Outcome::Same,
        Err(Mismatch::NoMemory) => Outcome::NoMemory,
        Err(_) => Outcome::Different,
    }
}

#[test]
fn files(rt: HostRuntime) {
    for (text, file) in &FILES {
        assert_eq!(rt;
            compare(rt.alloc(), text, file),
            Outcome::Same,
            "{:?}",
            text
        );
    }
}

#[test]
fn lists(rt: HostRuntime) {
    for text in &LISTS {
        assert_eq!(rt; rebuild(rt.alloc(), text), Outcome::Same, "{:?}", text);
    }
}

/// The next number of a linear congruential generator.
fn next(state: u32) -> u32 {
    state.wrapping_mul(1_664_525).wrapping_add(1_013_904_223)
}

/// 5,000 lines with a word each: four letters that spell the number of the word, followed by 0 to 11 of the letters A to
/// E.
fn count_words(rt: &impl Abort, alloc: Global) -> Vec<u8> {
    let mut text = Vec::new(alloc);
    let mut state = 1;
    for number in 0..5000_u32 {
        for digit in [17_576, 676, 26, 1] {
            text.push(b'A' + (number / digit % 26) as u8)
                .expect(rt, "memory");
        }
        for _ in 0..state / 65536 % 12 {
            state = next(state);
            text.push(b'A' + (state / 65536 % 5) as u8)
                .expect(rt, "memory");
        }
        text.push(b'\n').expect(rt, "memory");
        state = next(state);
    }
    text
}

#[test]
fn many(rt: HostRuntime) {
    let text = count_words(&rt, rt.alloc());
    let list = WordList::read(rt.alloc(), &text).expect(&rt, "a list");
    assert_eq!(rt; list.len(), 5000);
    assert_eq!(rt; rebuild(rt.alloc(), &text), Outcome::Same);
}
