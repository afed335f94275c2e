//! Files of both formats in which one word is changed: their faults.
use lex_file::FileFault::{
    Accept, DeadArc, Label, Length, Magic, Mask, NoMark, OpenRun, Order, Root, Target,
};
use lex_file::{FileFault, LexFile};
use std::alloc::Global;
use std::process::Abort;
use test_samples::{AT, AT_BY_NODES};

/// A file, one of its words by its number, the bytes that it is changed to, and the fault that this makes, if it makes one. The words
/// 0 to 3 are the header: the name of the format, the number of arcs or of words of nodes, the root and the number of words.
const CHANGES: [(&[u8], usize, [u8; 4], Option<FileFault>); 29] = [
    (&AT, 0, [0x48, 0x41, 0x44, 0x31], Some(Magic)),
    (&AT, 0, [0x47, 0x41, 0x44, 0x30], Some(Magic)),
    (&AT, 1, [0x04, 0x00, 0x00, 0x00], Some(Length)),
    (&AT, 1, [0x06, 0x00, 0x00, 0x00], Some(Length)),
    (&AT, 1, [0x05, 0x00, 0x00, 0x40], Some(Length)),
    (&AT, 2, [0x05, 0x00, 0x00, 0x00], Some(Root)),
    (&AT, 2, [0x00, 0x00, 0x00, 0x00], Some(Root)),
    (&AT, 2, [0x06, 0x00, 0x00, 0x00], Some(Root)),
    (&AT, 2, [0xff, 0xff, 0xff, 0xff], Some(Root)),
    (&AT, 4, [0x7b, 0x00, 0x00, 0x00], Some(Label)),
    (&AT, 8, [0xc1, 0x01, 0x00, 0x00], Some(Order)),
    (&AT, 5, [0x40, 0x01, 0x00, 0x00], Some(Target)),
    (&AT, 8, [0x54, 0x02, 0x00, 0x00], Some(Target)),
    (&AT, 8, [0xd4, 0x02, 0x00, 0x00], Some(Target)),
    (&AT, 4, [0x54, 0x00, 0x00, 0x00], Some(DeadArc)),
    (&AT, 8, [0x94, 0x01, 0x00, 0x00], Some(OpenRun)),
    (&AT, 7, [0x21, 0x01, 0x00, 0x00], None),
    (&AT, 3, [0x02, 0x00, 0x00, 0x00], None),
    (&AT, 2, [0x01, 0x00, 0x00, 0x00], None),
    (&AT, 4, [0x7a, 0x00, 0x00, 0x00], None),
    (&AT_BY_NODES, 0, [0x47, 0x41, 0x44, 0x30], Some(Magic)),
    (&AT_BY_NODES, 1, [0x0c, 0x00, 0x00, 0x00], Some(Length)),
    (&AT_BY_NODES, 2, [0x0b, 0x00, 0x00, 0x00], Some(Root)),
    (&AT_BY_NODES, 4, [0x00, 0x00, 0x10, 0x88], Some(Mask)),
    (&AT_BY_NODES, 7, [0x01, 0x00, 0x00, 0x00], Some(NoMark)),
    (&AT_BY_NODES, 8, [0x02, 0x00, 0x00, 0x00], Some(Accept)),
    (&AT_BY_NODES, 9, [0x04, 0x00, 0x00, 0x00], Some(Target)),
    (&AT_BY_NODES, 5, [0x00, 0x00, 0x00, 0x00], Some(DeadArc)),
    (&AT_BY_NODES, 13, [0x06, 0x00, 0x10, 0x80], Some(OpenRun)),
];

/// A file with other bytes in place of one of its words.
fn with_word(rt: &impl Abort, alloc: Global, file: &[u8], number: usize, word: &[u8]) -> Vec<u8> {
    let start = number.saturating_mul(4);
    let front = file.get(..start).expect(rt, "a word");
    let rest = file.get(start.saturating_add(4)..).expect(rt, "a word");
    let mut bytes = Vec::from_slice(alloc, front).expect(rt, "memory");
    bytes.extend_from_slice(word).expect(rt, "memory");
    bytes.extend_from_slice(rest).expect(rt, "memory");
    bytes
}

#[test]
fn changes(rt: HostRuntime) {
    for (file, number, word, fault) in &CHANGES {
        let bytes = with_word(&rt, rt.alloc(), file, *number, word);
        let opened = LexFile::open(&bytes).err();
        assert_eq!(rt; opened, *fault, "word {number}: {word:?}");
    }
}
