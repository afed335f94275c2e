//! Files of the second format: whether they are those of a list, and their nodes.
use lex_check::{Mismatch, check};
use lex_file::{Format, LexFile};
use lex_list::WordList;
use std::alloc::Global;
use std::process::Abort;
use test_samples::{AT, AT_BY_NODES};

/// What the check of a file with the list of AT gives; none if the file is refused before it.
fn outcome(alloc: Global, file: &[u8]) -> Option<Result<(), Mismatch>> {
    let list = WordList::read(alloc, b"AT").ok()?;
    let lexicon = LexFile::open(file).ok()?;
    Some(check(alloc, &list, &lexicon))
}

#[test]
fn one_bit_changed(rt: HostRuntime) {
    for bit in 0..8 * AT_BY_NODES.len() {
        let mut bytes = AT_BY_NODES;
        bytes[bit / 8] ^= 1 << (bit % 8);
        let reported = outcome(rt.alloc(), &bytes);
        assert!(rt; !matches!(reported, Some(Ok(()))), "bit {bit}");
    }
}

/// The numbers of the stored nodes, in the file's order, and 0 if there are fewer.
fn places(file: &LexFile<'_>) -> [u32; 6] {
    let mut numbers = [0; 6];
    let mut node = file.first();
    for number in &mut numbers {
        if let Some(here) = node {
            *number = file.place(here);
            node = file.after(here);
        }
    }
    numbers
}

fn file_of<'a>(rt: &impl Abort, bytes: &'a [u8]) -> LexFile<'a> {
    LexFile::open(bytes).expect(rt, "a file")
}

#[test]
fn stored_nodes(rt: HostRuntime) {
    let by_nodes = file_of(&rt, &AT_BY_NODES);
    assert_eq!(rt; by_nodes.format(), Format::Gad2);
    assert_eq!(rt; (by_nodes.arc_count(), by_nodes.word_count()), (5, 1));
    assert_eq!(rt; places(&by_nodes), [1, 4, 7, 10, 0, 0]);
    let by_arcs = file_of(&rt, &AT);
    assert_eq!(rt; by_arcs.format(), Format::Gad1);
    assert_eq!(rt; places(&by_arcs), [1, 2, 3, 4, 0, 0]);
}
